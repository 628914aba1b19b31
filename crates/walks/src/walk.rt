// Reading a walk: its bindings from the first to the last, strictly ascending.
ghost use Rattle.std.specs.Prelude.{◌≡◌, ◌+◌, ◌≤◌, length};
ghost use Rattle.octets.specs.Parts.{part};
ghost use Rattle.names.specs.SubIds.{subids};
ghost use Rattle.names.specs.Order.{below};
ghost use Rattle.walks.specs.Walk.{walk_of, walk_judged};

use identifiers::order::relate;
use message::form::Refusal;
use message::kinds::SET;
use message::refusals::Reason;
use message::request::binding_at;

// Whether the name of n octets from a is below that of m octets from b.
fn ascends(s: &[u8], a: usize, n: usize, b: usize, m: usize) -> bool
    requires { (a + n ≤ length s.now) × (b + m ≤ length s.now) }
    ensures { result ≡ below (subids (part s.now a n)) (subids (part s.now b m)) }
{
    let c = a + n;
    let d = b + m;
    relate(&s[a..c], &s[b..d]).is_lt()
}

// Whether a walk can be read, and else its first refusal.
pub fn judge(s: &[u8]) -> Result<(), Refusal>
    ensures { result ≡ walk_judged (walk_of s.now) }
{
    let mut at: usize = 0;
    // the name before: at first the empty one
    let mut name: usize = 0;
    let mut size: usize = 0;
    while at < s.len() {
        // A walk's contents are those of a set.
        let read = binding_at(SET, s, at)?;
        let binding = read.binding;
        if !ascends(s, name, size, binding.name, binding.size) {
            return Err(Refusal {
                reason: Reason::NotAscending,
                at: 0,
            });
        }
        name = binding.name;
        size = binding.size;
        at = read.next;
    }
    Ok(())
}
