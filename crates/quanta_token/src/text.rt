// Texts, compared byte for byte.
ghost use Rattle.std.specs.Prelude.{◌≡◌};
ghost use Rattle.quanta_token.specs.Text.{same as same_bytes};

// Whether a and b hold the same bytes.
#[tactic(auto, using(crate::proofs::TextLaws::pointwise_same))]
pub fn same(a: &[u8], b: &[u8]) -> bool
    ensures { result ≡ same_bytes a.now b.now }
{
    a == b
}
