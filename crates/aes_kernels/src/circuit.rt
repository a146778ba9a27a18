// SubBytes on planes: plane j has bit j of each byte.

ghost use Rattle.std.specs.Prelude.{◌≡◌, ◌<◌, ℕ};
ghost use Rattle.aes_kernels.specs.Circuit.{both, sum, ArePlanes, byte_at, substituted_at};

use std::simd::u8x16;

#[inline(always)]
pub(crate) fn sum(x: u8x16, y: u8x16) -> u8x16
    ensures { result ≡ sum x y }
{
    x ^ y
}

#[inline(always)]
fn both(x: u8x16, y: u8x16) -> u8x16
    ensures { result ≡ both x y }
{
    x & y
}

/// SubBytes, but for its constant, in 115 gates (Boyar and Peralta).
#[inline(always)]
pub(crate) fn substituted(x: [u8x16; 8]) -> [u8x16; 8]
    requires { ArePlanes x }
    ensures planes { ArePlanes result }
    ensures bytes { (lane bit : ℕ) → lane < 16 → bit < 8 → byte_at result lane bit ≡ substituted_at (byte_at x lane bit) }
{
    let [p0, p1, p2, p3, p4, p5, p6, p7] = x;
    let y14 = sum(p4, p2);
    let y13 = sum(p7, p1);
    let y9 = sum(p7, p4);
    let y8 = sum(p7, p2);
    let t0 = sum(p6, p5);
    let y1 = sum(t0, p0);
    let y4 = sum(y1, p4);
    let y12 = sum(y13, y14);
    let y2 = sum(y1, p7);
    let y5 = sum(y1, p1);
    let y3 = sum(y5, y8);
    let t1 = sum(p3, y12);
    let y15 = sum(t1, p2);
    let y20 = sum(t1, p6);
    let y6 = sum(y15, p0);
    let y10 = sum(y15, t0);
    let y11 = sum(y20, y9);
    let y7 = sum(p0, y11);
    let y17 = sum(y10, y11);
    let y19 = sum(y10, y8);
    let y16 = sum(t0, y11);
    let y21 = sum(y13, y16);
    let y18 = sum(p7, y16);
    let t2 = both(y12, y15);
    let t3 = both(y3, y6);
    let t4 = sum(t3, t2);
    let t5 = both(y4, p0);
    let t6 = sum(t5, t2);
    let t7 = both(y13, y16);
    let t8 = both(y5, y1);
    let t9 = sum(t8, t7);
    let t10 = both(y2, y7);
    let t11 = sum(t10, t7);
    let t12 = both(y9, y11);
    let t13 = both(y14, y17);
    let t14 = sum(t13, t12);
    let t15 = both(y8, y10);
    let t16 = sum(t15, t12);
    let t17 = sum(t4, t14);
    let t18 = sum(t6, t16);
    let t19 = sum(t9, t14);
    let t20 = sum(t11, t16);
    let t21 = sum(t17, y20);
    let t22 = sum(t18, y19);
    let t23 = sum(t19, y21);
    let t24 = sum(t20, y18);
    let t25 = sum(t21, t22);
    let t26 = both(t21, t23);
    let t27 = sum(t24, t26);
    let t28 = both(t25, t27);
    let t29 = sum(t28, t22);
    let t30 = sum(t23, t24);
    let t31 = sum(t22, t26);
    let t32 = both(t31, t30);
    let t33 = sum(t32, t24);
    let t34 = sum(t23, t33);
    let t35 = sum(t27, t33);
    let t36 = both(t24, t35);
    let t37 = sum(t36, t34);
    let t38 = sum(t27, t36);
    let t39 = both(t29, t38);
    let t40 = sum(t25, t39);
    let t41 = sum(t40, t37);
    let t42 = sum(t29, t33);
    let t43 = sum(t29, t40);
    let t44 = sum(t33, t37);
    let t45 = sum(t42, t41);
    let z0 = both(t44, y15);
    let z1 = both(t37, y6);
    let z2 = both(t33, p0);
    let z3 = both(t43, y16);
    let z4 = both(t40, y1);
    let z5 = both(t29, y7);
    let z6 = both(t42, y11);
    let z7 = both(t45, y17);
    let z8 = both(t41, y10);
    let z9 = both(t44, y12);
    let z10 = both(t37, y3);
    let z11 = both(t33, y4);
    let z12 = both(t43, y13);
    let z13 = both(t40, y5);
    let z14 = both(t29, y2);
    let z15 = both(t42, y9);
    let z16 = both(t45, y14);
    let z17 = both(t41, y8);
    let t46 = sum(z15, z16);
    let t47 = sum(z10, z11);
    let t48 = sum(z5, z13);
    let t49 = sum(z9, z10);
    let t50 = sum(z2, z12);
    let t51 = sum(z2, z5);
    let t52 = sum(z7, z8);
    let t53 = sum(z0, z3);
    let t54 = sum(z6, z7);
    let t55 = sum(z16, z17);
    let t56 = sum(z12, t48);
    let t57 = sum(t50, t53);
    let t58 = sum(z4, t46);
    let t59 = sum(z3, t54);
    let t60 = sum(t46, t57);
    let t61 = sum(z14, t57);
    let t62 = sum(t52, t58);
    let t63 = sum(t49, t58);
    let t64 = sum(z4, t59);
    let t65 = sum(t61, t62);
    let t66 = sum(z1, t63);
    let s0 = sum(t59, t63);
    let s6 = sum(t56, t62);
    let s7 = sum(t48, t60);
    let t67 = sum(t64, t65);
    let s3 = sum(t53, t66);
    let s4 = sum(t51, t66);
    let s5 = sum(t47, t65);
    let s1 = sum(t64, s3);
    let s2 = sum(t55, t67);
    [s7, s6, s5, s4, s3, s2, s1, s0]
}
