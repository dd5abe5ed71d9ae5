//! The first place to which calls from one number to another come.
ghost use Rattle.std.specs.Prelude.{◌≡◌, ◌<◌, ◌≤◌, ◌+◌, [], ◌∷◌, true, false, All, length};
ghost use Rattle.ec_calls.specs.Numbers.{IsKept, IsWithin, Lowers, is_sooner, one_if, start, total};

use crate::order::is_before;
use ec_base::Span;

/// A call of one function in another, by their numbers.
#[derive(Clone, Copy)]
pub(crate) struct Edge {
    pub(crate) caller: usize,
    pub(crate) callee: usize,
}

fn is_sooner(a: Option<Span>, b: Option<Span>) -> bool
    ensures sooner { result ≡ is_sooner a b }
    ensures starts { result ≡ true → start a < start b }
{
    match (a, b) {
        (None, _) => false,
        (Some(_), None) => true,
        (Some(a), Some(b)) => is_before(a, b),
    }
}

/// Takes the place of what is called over to its caller, where it is the earlier one, and says so.
fn relax(places: &mut [Option<Span>], call: Edge) -> bool
    requires { IsWithin (length places.old) call }
    ensures lowers { Lowers (call ∷ []) places.old places.new }
    ensures falls { total places.new + one_if result ≤ total places.old }
    ensures same { result ≡ false → (places.new ≡ places.old) }
    ensures kept { result ≡ false → IsKept places.new call }
{
    let place = places[call.callee];
    if is_sooner(place, places[call.caller]) {
        places[call.caller] = place;
        return true;
    }
    false
}

/// Goes over all calls, and says whether a place was taken over.
fn sweep(places: &mut [Option<Span>], calls: &[Edge]) -> bool
    requires { All (IsWithin (length places.old)) calls.now }
    ensures lowers { Lowers calls.now places.old places.new }
    ensures falls { total places.new + one_if result ≤ total places.old }
    ensures kept { result ≡ false → All (IsKept places.new) calls.now }
{
    let mut changed = false;
    for call in calls {
        if relax(places, *call) {
            changed = true;
        }
    }
    changed
}

/// The same from the last call to the first.
fn sweep_back(places: &mut [Option<Span>], calls: &[Edge])
    requires { All (IsWithin (length places.old)) calls.now }
    ensures lowers { Lowers calls.now places.old places.new }
    ensures falls { total places.new ≤ total places.old }
{
    let mut left = calls.len();
    while 0 < left {
        left -= 1;
        relax(places, calls[left]);
    }
}

/// Takes places over along calls until none is earlier than a caller's.
pub(crate) fn settle(places: &mut [Option<Span>], calls: &[Edge])
    requires { All (IsWithin (length places.old)) calls.now }
    ensures lowers { Lowers calls.now places.old places.new }
    ensures kept { All (IsKept places.new) calls.now }
{
    while sweep(places, calls) {
        sweep_back(places, calls);
    }
}
