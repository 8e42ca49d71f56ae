// Definitions and laws on lists, and on tests that run in order, that several crates use; the test of a whole list, and a copy into a part.

#![tactic(auto)]

ghost use Rattle.std.specs.Prelude.{◌≡◌, ◌+◌, ◌≤◌, length};
ghost use Rattle.lists.specs.Build.{put};
ghost use Rattle.lists.specs.Count.{all_hold};

// Whether all tests hold.
pub fn all_hold(tests: &[bool]) -> bool
    ensures { result ≡ all_hold tests.now }
{
    tests.iter().all(|&holds| holds)
}

// `from` goes into `out` from place `at` on.
pub fn copy<T: Copy>(from: &[T], out: &mut [T], at: usize)
    requires { at + length from.now ≤ length out.old }
    ensures { out.new ≡ put out.old at from.now }
{
    out[at..at + from.len()].copy_from_slice(from);
}
