// A page's tally: how many of its queries are accepted, and how many turned away.
#![tactic(auto)]

ghost use Rattle.std.specs.Prelude.{◌≡◌};
ghost use Rattle.tally.specs.Tallied.{Roomy, tallied};

// The two numbers, as C lays them out. There is no invariant, since C may lend any two: whoever counts one more is asked
// for the room.
#[repr(C)]
#[derive(Clone, Copy)]
pub struct Tally {
    pub accepted: u64,
    pub turned_away: u64,
}

// The tally after one more query, by value.
pub fn counted(t: Tally, accepted: bool) -> Tally
    requires { Roomy t }
    ensures { result ≡ tallied t accepted }
{
    if accepted {
        let more = t.accepted + 1;
        return Tally {
            accepted: more,
            turned_away: t.turned_away,
        };
    }
    let more = t.turned_away + 1;
    Tally {
        accepted: t.accepted,
        turned_away: more,
    }
}

// One query is counted in the tally that is lent.
pub fn count(t: &mut Tally, accepted: bool)
    requires { Roomy t.old }
    ensures { t.new ≡ tallied t.old accepted }
{
    *t = counted(*t, accepted);
}

// The tally after one more query: a tally of its own is lent to `count`.
pub fn stepped(t: Tally, accepted: bool) -> Tally
    requires { Roomy t }
    ensures { result ≡ tallied t accepted }
{
    let mut lent = t;
    count(&mut lent, accepted);
    lent
}
