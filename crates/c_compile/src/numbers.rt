// Three numbers at the front of a list of u64.
ghost use Rattle.std.specs.Prelude.{◌≡◌, [], ◌∷◌, ◌≤◌, length};
ghost use Rattle.std.proofs.lemmas.List.Edits.{sets};

pub(crate) fn put_three(s: &mut [u64], a: usize, b: usize, c: usize)
    requires { 3 ≤ length s.old }
    ensures { s.new ≡ sets s.old 0 (a ∷ b ∷ c ∷ []) }
{
    s[0] = a as u64;
    s[1] = b as u64;
    s[2] = c as u64;
}
