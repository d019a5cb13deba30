// Two lists compared to the last element, of bytes and of words.
#![tactic(auto)]

ghost use Rattle.std.specs.Prelude.{◌≡◌};
ghost use Rattle.std.specs.Cmp.Lexicographic.{pointwise};

// To the last element: of bytes, case matters here.
pub fn is_same<T: Eq>(word: &[T], name: &[T]) -> bool
    ensures { result ≡ pointwise T.eq word.now name.now }
{
    word == name
}
