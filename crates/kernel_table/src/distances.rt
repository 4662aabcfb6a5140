//! The 40 distances in their order.
ghost use Rattle.std.specs.Prelude.{◌≡◌, ◌≤◌, ◌<◌, unsigned_abs};
ghost use Rattle.complex_box.specs.Box.{number};
ghost use Rattle.kernel_table.specs.Kernel.{IsKernelDistance};
ghost use Rattle.kernel_table.specs.Table.{far_part, distance_at};

use complex_box::Gauss;

/// How many distances there are.
pub const DISTANCES: usize = 40;

/// -3, -2, 2 and 3, from 0 on.
fn far_part_at(index: usize) -> i64
    requires { index < 4 }
    ensures { result ≡ far_part index }
{
    let part = index as i64;
    if index < 2 { part - 3 } else { part }
}

/// The distance of this index.
pub fn distance(index: usize) -> Gauss
    requires { index < 40 }
    ensures value { number result ≡ distance_at index }
    ensures is_distance { IsKernelDistance (number result) }
{
    if index < 28 {
        Gauss {
            re: far_part_at(index / 7),
            im: (index % 7) as i64 - 3,
        }
    } else {
        Gauss {
            re: ((index - 28) / 4) as i64 - 1,
            im: far_part_at((index - 28) % 4),
        }
    }
}

/// The index of -3, -2, 2 or 3.
fn far_index(part: i64) -> usize
    requires least { 2 ≤ unsigned_abs part }
    requires most { unsigned_abs part ≤ 3 }
    ensures index { result < 4 }
    ensures value { far_part result ≡ part }
{
    if part < 0 {
        (part + 3) as usize
    } else {
        part as usize
    }
}

/// The index of a distance.
pub fn distance_index(e: Gauss) -> usize
    requires { IsKernelDistance (number e) }
    ensures index { result < 40 }
    ensures value { distance_at result ≡ number e }
{
    if e.re.abs() >= 2 {
        far_index(e.re) * 7 + (e.im + 3) as usize
    } else {
        28 + (e.re + 1) as usize * 4 + far_index(e.im)
    }
}
