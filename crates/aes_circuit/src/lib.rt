// The S-box of AES as a circuit on planes of bits (Boyar and Peralta: 113 gates): 32 bytes at once.
#![tactic(auto)]

ghost use Rattle.std.specs.Prelude.{◌≡◌, ℕ, ◌<◌};
ghost use Rattle.aes_tables.specs.SBox.{s_box};
ghost use Rattle.aes_circuit.specs.Circuit.{top_of, middle_of, inverse_of, products_of, bottom_of, sbox_of, byte_at};

#[derive(Clone, Copy)]
pub struct Bits {
    pub x0: u32,
    pub x1: u32,
    pub x2: u32,
    pub x3: u32,
    pub x4: u32,
    pub x5: u32,
    pub x6: u32,
    pub x7: u32,
}

#[derive(Clone, Copy)]
pub struct Linear {
    pub y14: u32,
    pub y13: u32,
    pub y9: u32,
    pub y8: u32,
    pub y1: u32,
    pub y4: u32,
    pub y12: u32,
    pub y2: u32,
    pub y5: u32,
    pub y3: u32,
    pub y15: u32,
    pub y20: u32,
    pub y6: u32,
    pub y10: u32,
    pub y11: u32,
    pub y7: u32,
    pub y17: u32,
    pub y19: u32,
    pub y16: u32,
    pub y21: u32,
    pub y18: u32,
}

#[derive(Clone, Copy)]
pub struct Four {
    pub t21: u32,
    pub t22: u32,
    pub t23: u32,
    pub t24: u32,
}

#[derive(Clone, Copy)]
pub struct Nine {
    pub t29: u32,
    pub t33: u32,
    pub t37: u32,
    pub t40: u32,
    pub t41: u32,
    pub t42: u32,
    pub t43: u32,
    pub t44: u32,
    pub t45: u32,
}

#[derive(Clone, Copy)]
pub struct Ands {
    pub z0: u32,
    pub z1: u32,
    pub z2: u32,
    pub z3: u32,
    pub z4: u32,
    pub z5: u32,
    pub z6: u32,
    pub z7: u32,
    pub z8: u32,
    pub z9: u32,
    pub z10: u32,
    pub z11: u32,
    pub z12: u32,
    pub z13: u32,
    pub z14: u32,
    pub z15: u32,
    pub z16: u32,
    pub z17: u32,
}

fn top(x: Bits) -> Linear
    ensures { result ≡ top_of x }
{
    let y14 = x.x3 ^ x.x5;
    let y13 = x.x0 ^ x.x6;
    let y9 = x.x0 ^ x.x3;
    let y8 = x.x0 ^ x.x5;
    let t0 = x.x1 ^ x.x2;
    let y1 = t0 ^ x.x7;
    let y4 = y1 ^ x.x3;
    let y12 = y13 ^ y14;
    let y2 = y1 ^ x.x0;
    let y5 = y1 ^ x.x6;
    let y3 = y5 ^ y8;
    let t1 = x.x4 ^ y12;
    let y15 = t1 ^ x.x5;
    let y20 = t1 ^ x.x1;
    let y6 = y15 ^ x.x7;
    let y10 = y15 ^ t0;
    let y11 = y20 ^ y9;
    let y7 = x.x7 ^ y11;
    let y17 = y10 ^ y11;
    let y19 = y10 ^ y8;
    let y16 = t0 ^ y11;
    let y21 = y13 ^ y16;
    let y18 = x.x0 ^ y16;
    Linear {
        y14: y14,
        y13: y13,
        y9: y9,
        y8: y8,
        y1: y1,
        y4: y4,
        y12: y12,
        y2: y2,
        y5: y5,
        y3: y3,
        y15: y15,
        y20: y20,
        y6: y6,
        y10: y10,
        y11: y11,
        y7: y7,
        y17: y17,
        y19: y19,
        y16: y16,
        y21: y21,
        y18: y18,
    }
}

fn middle(x7: u32, y: Linear) -> Four
    ensures { result ≡ middle_of x7 y }
{
    let t2 = y.y12 & y.y15;
    let t3 = y.y3 & y.y6;
    let t4 = t3 ^ t2;
    let t5 = y.y4 & x7;
    let t6 = t5 ^ t2;
    let t7 = y.y13 & y.y16;
    let t8 = y.y5 & y.y1;
    let t9 = t8 ^ t7;
    let t10 = y.y2 & y.y7;
    let t11 = t10 ^ t7;
    let t12 = y.y9 & y.y11;
    let t13 = y.y14 & y.y17;
    let t14 = t13 ^ t12;
    let t15 = y.y8 & y.y10;
    let t16 = t15 ^ t12;
    let t17 = t4 ^ t14;
    let t18 = t6 ^ t16;
    let t19 = t9 ^ t14;
    let t20 = t11 ^ t16;
    let t21 = t17 ^ y.y20;
    let t22 = t18 ^ y.y19;
    let t23 = t19 ^ y.y21;
    let t24 = t20 ^ y.y18;
    Four {
        t21: t21,
        t22: t22,
        t23: t23,
        t24: t24,
    }
}

fn inverse(m: Four) -> Nine
    ensures { result ≡ inverse_of m }
{
    let t25 = m.t21 ^ m.t22;
    let t26 = m.t21 & m.t23;
    let t27 = m.t24 ^ t26;
    let t28 = t25 & t27;
    let t29 = t28 ^ m.t22;
    let t30 = m.t23 ^ m.t24;
    let t31 = m.t22 ^ t26;
    let t32 = t31 & t30;
    let t33 = t32 ^ m.t24;
    let t34 = m.t23 ^ t33;
    let t35 = t27 ^ t33;
    let t36 = m.t24 & t35;
    let t37 = t36 ^ t34;
    let t38 = t27 ^ t36;
    let t39 = t29 & t38;
    let t40 = t25 ^ t39;
    let t41 = t40 ^ t37;
    let t42 = t29 ^ t33;
    let t43 = t29 ^ t40;
    let t44 = t33 ^ t37;
    let t45 = t42 ^ t41;
    Nine {
        t29: t29,
        t33: t33,
        t37: t37,
        t40: t40,
        t41: t41,
        t42: t42,
        t43: t43,
        t44: t44,
        t45: t45,
    }
}

fn products(x7: u32, y: Linear, i: Nine) -> Ands
    ensures { result ≡ products_of x7 y i }
{
    Ands {
        z0: i.t44 & y.y15,
        z1: i.t37 & y.y6,
        z2: i.t33 & x7,
        z3: i.t43 & y.y16,
        z4: i.t40 & y.y1,
        z5: i.t29 & y.y7,
        z6: i.t42 & y.y11,
        z7: i.t45 & y.y17,
        z8: i.t41 & y.y10,
        z9: i.t44 & y.y12,
        z10: i.t37 & y.y3,
        z11: i.t33 & y.y4,
        z12: i.t43 & y.y13,
        z13: i.t40 & y.y5,
        z14: i.t29 & y.y2,
        z15: i.t42 & y.y9,
        z16: i.t45 & y.y14,
        z17: i.t41 & y.y8,
    }
}

fn bottom(z: Ands) -> Bits
    ensures { result ≡ bottom_of 0xffffffff z }
{
    let t46 = z.z15 ^ z.z16;
    let t47 = z.z10 ^ z.z11;
    let t48 = z.z5 ^ z.z13;
    let t49 = z.z9 ^ z.z10;
    let t50 = z.z2 ^ z.z12;
    let t51 = z.z2 ^ z.z5;
    let t52 = z.z7 ^ z.z8;
    let t53 = z.z0 ^ z.z3;
    let t54 = z.z6 ^ z.z7;
    let t55 = z.z16 ^ z.z17;
    let t56 = z.z12 ^ t48;
    let t57 = t50 ^ t53;
    let t58 = z.z4 ^ t46;
    let t59 = z.z3 ^ t54;
    let t60 = t46 ^ t57;
    let t61 = z.z14 ^ t57;
    let t62 = t52 ^ t58;
    let t63 = t49 ^ t58;
    let t64 = z.z4 ^ t59;
    let t65 = t61 ^ t62;
    let t66 = z.z1 ^ t63;
    let s0 = t59 ^ t63;
    let s6 = t56 ^ t62 ^ 0xffff_ffff;
    let s7 = t48 ^ t60 ^ 0xffff_ffff;
    let t67 = t64 ^ t65;
    let s3 = t53 ^ t66;
    let s4 = t51 ^ t66;
    let s5 = t47 ^ t65;
    let s1 = t64 ^ s3 ^ 0xffff_ffff;
    let s2 = t55 ^ t67 ^ 0xffff_ffff;
    Bits {
        x0: s0,
        x1: s1,
        x2: s2,
        x3: s3,
        x4: s4,
        x5: s5,
        x6: s6,
        x7: s7,
    }
}

// The S-box of each byte, x0 its highest bit.
pub fn sbox(x: Bits) -> Bits
    ensures value { result ≡ sbox_of 0xffffffff x }
    ensures by_index { (k : ℕ) → k < 32 → byte_at k result ≡ s_box (byte_at k x) }
{
    let y = top(x);
    let i = inverse(middle(x.x7, y));
    bottom(products(x.x7, y, i))
}
