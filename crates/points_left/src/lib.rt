// The points left over of a split (document 02, L1): T minus its points, an i32; the bits by which an answer holds it, and back.
#![tactic(auto)]

ghost use Rattle.std.specs.Prelude.{◌≡◌, ◌≤◌};
ghost use Rattle.std.proofs.Math.IntN.{sub_ℕ};
ghost use Rattle.points_left.specs.Left.{bits_of, signed_of, most31};

use units::Points;

// T minus points.
pub fn left_of(target: Points, points: Points) -> i32
    requires { (target.0 ≤ most31) × (points.0 ≤ most31) }
    ensures { result ≡ sub_ℕ target.0 points.0 }
{
    (target.0 as i32) - (points.0 as i32)
}

// The bits of an i32, as a u32.
pub fn bits_of(left: i32) -> u32
    ensures { result ≡ bits_of left }
{
    left.cast_unsigned()
}

// The i32 that has these bits.
pub fn signed_of(bits: u32) -> i32
    ensures { (result ≡ signed_of bits) × (bits_of result ≡ bits) }
{
    bits.cast_signed()
}
