//! The order of strings of bytes.
ghost use Rattle.std.specs.Prelude.{◌≡◌};
ghost use Rattle.vortex_model.specs.Order.{bytes_cmp};
ghost use Rattle.vortex_arrays_view.specs.Laws.{AreBytes};

use std::cmp::Ordering;

// Shows the prover that bytes are below 256.
fn are_bytes(bytes: &[u8])
    ensures { AreBytes bytes.now }
{}

// Words compare as their bytes do.
fn order_words(value: &[u8; 8], other: &[u8; 8]) -> Ordering
    ensures { result ≡ bytes_cmp value.now other.now }
{
    are_bytes(value);
    are_bytes(other);
    u64::from_be_bytes(*value).cmp(&u64::from_be_bytes(*other))
}

/// The order of two strings of bytes, eight of which are compared at a time.
pub fn order_bytes(value: &[u8], other: &[u8]) -> Ordering
    ensures { result ≡ bytes_cmp value.now other.now }
{
    let mut left = value;
    let mut right = other;
    while let Some((first, behind)) = left.split_first_chunk::<8>() {
        let Some((second, rest)) = right.split_first_chunk::<8>() else {
            return left.cmp(right);
        };
        let order = order_words(first, second);
        if order.is_ne() {
            return order;
        }
        left = behind;
        right = rest;
    }
    left.cmp(right)
}
