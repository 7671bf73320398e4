// The order of names, and names as they are in a profile table: raised already. What is right is said in the crate
// `names`, in `specs/Order.antt` and `specs/Name.antt`.
#![tactic(auto)]

ghost use Rattle.std.specs.Prelude.{◌≡◌};
ghost use Rattle.names.specs.Name.{is_raised_name};
ghost use Rattle.names.specs.Order as order;

// Whether one name comes before another: by the first byte that differs, a prefix first.
pub fn precedes(one: &[u8], other: &[u8]) -> bool
    ensures { result ≡ order.precedes one.now other.now }
{
    one < other
}

// Whether a text is a name of at most `limit` bytes as it is, with no lower case.
pub fn is_raised_name(text: &[u8], limit: usize) -> bool
    ensures { result ≡ is_raised_name limit text.now }
{
    if text.len() == 0 {
        return false;
    }
    if limit < text.len() {
        return false;
    }
    text.iter().all(|b| names::is_name_byte(*b))
}
