// The order of sorts in an environment.
ghost use Rattle.std.specs.Prelude.{◌≡◌, IsTrue, List};
ghost use Rattle.mt_layers.specs.Environments.{environment_in};
ghost use Rattle.mt_rules.specs.Comparison.{sorts_fit};
ghost use Rattle.mt_term.specs.Trees.{Tree};
ghost use Rattle.mt_term.specs.UniverseOrder.{at_most};

use mt_env::Env;
use mt_term::{Mode, Sort, UnivExpr};
use mt_universe::Graph;

fn at_most(graph: &Graph, u: &UnivExpr, w: &UnivExpr) -> bool
    ensures { result ≡ at_most graph.now.below u.now w.now }
{
    graph.leq(u, w)
}

/// Whether two sorts stand in the order of the mode.
#[tactic(auto, unfolding(mt_term::specs::UniverseOrder::same, mt_layers::specs::Environments::environment_in))]
pub fn sorts_fit(env: &Env, mode: Mode, s: &Sort, r: &Sort) -> bool
    ensures { (p : List Tree) → result ≡ sorts_fit (environment_in p env.now).below mode s.now r.now }
{
    match (s, r) {
        (Sort::Prop, Sort::Prop) => true,
        (Sort::Prop, Sort::Typ(_)) => matches!(mode, Mode::AtMost),
        (Sort::Typ(_), Sort::Prop) => false,
        (Sort::Typ(u), Sort::Typ(w)) => match mode {
            Mode::Equal => at_most(env.graph(), u, w) && at_most(env.graph(), w, u),
            Mode::AtMost => at_most(env.graph(), u, w),
        },
    }
}
