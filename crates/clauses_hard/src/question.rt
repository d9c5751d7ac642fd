// What is asked, as its clauses need it.
use clauses_lines::variables::Variables;
use query_rank::objective::Objective;

// The variables, the roles that the user may activate, the bounds, and the objectives for permissions and then for
// roles (01: aims).
#[derive(Clone, Copy)]
pub struct Question {
    pub variables: Variables,
    pub authorized: u64,
    pub lower: [u64; 4],
    pub upper: [u64; 4],
    pub first: Objective,
    pub second: Objective,
}
