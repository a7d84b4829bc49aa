// Number 24 of document 01 on the plan of a sheet: are the 4,096 nodes of lent tables in order, and the rows of all the sheet's waits?
// Each function equals its definition in specs/ for plans and words of any contents; specs/Claims says what that is for a module.
#![tactic(auto)]

mod judged_nodes;
mod judged_rows;

ghost use Rattle.std.specs.Prelude.{◌≡◌};
ghost use Rattle.plan.specs.Plan.{plan_of};
ghost use Rattle.clock_check.specs.Judging.{width_table, tables_fit_on};

use judged_nodes::{nodes_fit, used_nodes};
use judged_rows::rows_fit;
use plan::PlanTable;

// 24: are the lent tables in order? `written` has the masks of the registers that each thread writes. Fills the nodes' widths, up to the
// first node that isn't in order; from there on they are 0.
pub fn tables_fit(
    plan: &PlanTable,
    written: &[u32; 8],
    nodes: &[u16],
    rows: &[u16],
    sizes: &mut [u8; 4096],
) -> bool
    ensures value { result ≡ tables_fit_on (plan_of plan.now) written.now nodes.now rows.now }
    ensures sizes_after { sizes.new ≡ width_table (plan_of plan.now) nodes.now }
{
    let used = used_nodes(nodes);
    if !nodes_fit(plan, nodes, used, sizes) {
        return false;
    }
    rows_fit(plan, written, nodes, used, rows, sizes)
}
