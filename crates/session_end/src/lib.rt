// The end of a session's input (docs/RULES.md, 'Sessions'), and the sponge that the session gives from.
#![tactic(auto, unfolding(session_state::specs::Session::giving_sponge, session_state::specs::Session::input_end))]

ghost use Rattle.std.specs.Prelude.{◌≡◌, ◌%◌};
ghost use Rattle.encode.specs.Padding.{rate};
ghost use Rattle.sponge.specs.Running.{running, state_of, absorbed, finished};
ghost use Rattle.session_state.specs.Session.{input_end, giving_sponge};

use session_state::{Phase, Session};
use sponge::Sponge;

// The end of the input: right_encode(0) where it is KMACXOF256, then the suffix byte and the padding.
fn end_input(sponge: &mut Sponge, kmac: bool, suffix: u8)
    ensures { state_of sponge.new ≡ finished suffix (absorbed (running sponge.old.lanes (sponge.old.position % rate)) (input_end kmac)) }
{
    if kmac {
        sponge.absorb(b"\x00\x01");
    }
    sponge.finish(suffix);
}

// The first ask ends the input; a session that is giving goes on where it stands.
pub fn giving_sponge(s: Session) -> Sponge
    ensures { state_of result ≡ giving_sponge s.phase s }
{
    let lanes = s.lanes;
    match s.phase {
        Phase::Taking(position) => {
            let mut sponge = Sponge { lanes, position };
            end_input(&mut sponge, s.kmac, s.suffix);
            sponge
        }
        Phase::Giving(position) => Sponge { lanes, position },
    }
}
