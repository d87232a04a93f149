// Why what comes to a table or a pool is not taken in: it is there already, or no record is free.
#[derive(Clone, Copy, PartialEq, Eq)]
pub enum NotAdmitted {
    Replay,
    Full,
}
