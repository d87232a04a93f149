// The host's library: functions on numbers and lent slices, which crate `relay_c` exports to C. Each answers 0 or the number
// of a refusal, and writes its values into a lent answer. Whatever words and lengths a host lends have a meaning: nothing here
// has a `requires`. The words of what a host holds, and of an answer, are in crate `words`. Functions of one shape stay apart: C
// calls each by its name.
#![tactic(auto)]

pub mod datagrams;
pub mod edition_2017;
pub mod plans;
pub mod recordings;
pub mod settings;
pub mod streams;

pub use stream_answers::SETTINGS;
