//! What the type of a slice says of its bytes.
ghost use Rattle.std.specs.Prelude.{length};
ghost use Rattle.csp_model.specs.Validity.{IsOfSize, IsValidDigests};

use csp_model::Digests;

// Each byte of a slice is below 256.
pub(crate) fn slice_is_bytes(slice: &[u8])
    ensures { IsOfSize (length slice.now) slice.now }
{}

// Digests have 32, 48 and 64 bytes.
pub(crate) fn digests_are_bytes(digests: &Digests)
    ensures { IsValidDigests digests.now }
{
    slice_is_bytes(&digests.sha256);
    slice_is_bytes(&digests.sha384);
    slice_is_bytes(&digests.sha512);
}
