ghost use Rattle.std.specs.Prelude.{◌≡◌, ◌<◌, ◌-◌, ◌^◌, [], map, vec_len, IfOk};
ghost use Rattle.cluster_plan.specs.declared.recovery_kind.RecoveryKind.TheVariants as kind;
ghost use Rattle.cluster_plan.specs.Plan.{plan};
ghost use Rattle.cluster_plan.specs.Repairing.{plan_by};
ghost use Rattle.cluster_examples.specs.Turns.{IsItsStep, IsTold, turns};

use cluster_plan::{Answer, NodeEntry, Repair, RepairStep};
use containers::{Queue, Seq};
use mux_routing::SlotMap;
use slot_hash::NodeAddress;
use std::alloc::{AllocError, Global};

/// What a step asks is told the first of these. Whether it asked something, and there was an answer.
fn tell(repair: &mut Repair, step: &RepairStep, told: &mut Queue<Answer>) -> bool
    requires given { IsItsStep repair.old step.now }
    requires room { repair.old.attempt < 2 ^ 32 - 1 }
    ensures { IsTold repair.old step.now told.old repair.new told.new result }
{
    match step {
        RepairStep::Asks(ask) => match told.pop_front() {
            Some(answer) => {
                repair.answer(ask, answer);
                true
            }
            None => false,
        },
        RepairStep::Connected(_) => false,
        RepairStep::Leaves => false,
        RepairStep::Stays => false,
    }
}

/// What a repair does in each turn, where what it asks is told this, until it ends or nothing more is told. The map and the
/// slots stand meanwhile.
pub fn repair_turns(
    alloc: Global,
    address: NodeAddress,
    attempts: Option<u32>,
    entries: &[NodeEntry],
    slots: &SlotMap,
    told: Vec<Answer>,
) -> Result<Seq<RepairStep>, AllocError>
    requires { vec_len told < 2 ^ 32 - 2 }
    ensures { IfOk result (λ steps. map (plan_by address entries.now slots.now) steps
        ≡ turns (plan (kind.Repair address) [] entries.now slots.now attempts) told.items) }
{
    let mut repair = Repair::begin(address, attempts);
    let mut steps = Seq::new(alloc);
    let mut rest = Queue::from_vec(told);
    loop {
        let step = repair.next(alloc, entries, slots)?;
        let goes_on = tell(&mut repair, &step, &mut rest);
        steps.push(step)?;
        if !goes_on {
            return Ok(steps);
        }
    }
}
