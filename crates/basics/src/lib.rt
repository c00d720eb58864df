// A total read of a slice, and a copy to the front of one. Nothing here knows of tables or paths.
#![tactic(auto)]

ghost use Rattle.std.specs.Prelude.{◌≡◌, ◌++◌, ◌<◌, ◌≤◌, length, get_or, drop};

// What stands at i, or 0 past the end.
pub fn entry(s: &[u32], i: usize) -> usize
    ensures { (result ≡ get_or s.now i 0) × (result < 4294967296) }
{
    s.get(i).copied().unwrap_or(0) as usize
}

// Copies values to the front of an output that has room for them.
pub fn copy<T: Copy>(from: &[T], out: &mut [T])
    requires { length from.now ≤ length out.old }
    ensures { out.new ≡ from.now ++ drop (length from.now) out.old }
{
    out[..from.len()].copy_from_slice(from);
}
