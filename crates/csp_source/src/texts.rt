//! Texts without a last byte.
ghost use Rattle.std.specs.Prelude.{◌≡◌};
ghost use Rattle.csp_model.specs.Ascii as spec;

// The text without one such byte at its end.
#[tactic(auto, using(csp_model::proofs::FinalBytes::byte_turned))]
pub(crate) fn without_final(text: &[u8], byte: u8) -> &[u8]
    ensures { result.now ≡ spec.without_final byte text.now }
{
    text.strip_suffix(&[byte]).unwrap_or(text)
}
