// How many soft clauses an ask has, and the weight of a hard clause.
ghost use Rattle.std.specs.Prelude.{◌≡◌, ◌≤◌, ℕ, length};
ghost use Rattle.model.specs.Clauses.{top};
ghost use Rattle.query_rank.specs.Objectives.{number_of, Stands};
ghost use Rattle.clauses_soft.specs.Soft.{where_aimed as where_aimed_of, soft_by};

use clauses_lines::variables::Variables;
use query_rank::objective::Objective;

// n, where there is an objective.
#[tactic(auto, unfolding(crate::specs::Soft::where_aimed))]
fn where_aimed(aim: Objective, n: usize) -> usize
    ensures { (result ≡ where_aimed_of (number_of aim) n) × (result ≤ n) }
{
    match aim {
        Objective::Any => 0,
        Objective::Fewest | Objective::Most => n,
    }
}

// How many soft clauses there are, by each two numbers that stand for the objectives.
#[tactic(auto, using(crate::proofs::SoftSizes::length_standing))]
pub fn soft_size(first: Objective, second: Objective, variables: Variables) -> usize
    ensures { ((a b : ℕ) → Stands first a → Stands second b → result ≡ length (soft_by variables.roles variables.permissions a b))
        × (result ≤ 320) }
{
    where_aimed(first, variables.permissions) + where_aimed(second, variables.roles)
}

// The weight of a hard clause: the top of the head line, above all soft ones together, by each two numbers that stand
// for the objectives.
#[tactic(auto, using(crate::proofs::SoftSizes::top_standing, crate::proofs::SoftSizes::weights_small))]
pub fn top_weight(first: Objective, second: Objective, variables: Variables) -> usize
    ensures { ((a b : ℕ) → Stands first a → Stands second b → result ≡ top (soft_by variables.roles variables.permissions a b))
        × (result ≤ 16705) }
{
    let weight = variables.roles + 1;
    where_aimed(first, variables.permissions * weight) + where_aimed(second, variables.roles) + 1
}
