// The call for a relay, with its accuracy as a flag and a number.
#![tactic(auto)]

ghost use Rattle.std.specs.Prelude.{◌≡◌, length};
ghost use Rattle.score_state.specs.Lent.{lent, answered};
ghost use Rattle.inspect.specs.Inspect.{acc_of, acc_by};
ghost use Rattle.relay_laws.specs.Relay.{relay_answer, IsRelay};

// 0 with tried and six counts a chart in out, or 21, 5, 7, 10, 11 or 13 with out unchanged. The number of an accuracy that is not given is not
// looked at.
pub fn relay(classic: bool, acc_given: bool, acc: f64, plays: &[u32], out: &mut [u32]) -> u32
    ensures equation { lent result out.new ≡ answered (relay_answer classic (acc_of (acc_by acc_given acc)) plays.now (length out.old)) out.old }
    ensures relayed { result ≡ 0 → IsRelay classic (acc_of (acc_by acc_given acc)) plays.now out.new }
{
    match relay::relay(classic, inspect::acc_by(acc_given, acc), plays, out) {
        Ok(()) => 0,
        Err(refusal) => refusal.into(),
    }
}
