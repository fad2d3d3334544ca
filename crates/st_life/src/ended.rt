//! A life that is over.
ghost use Rattle.std.specs.Prelude.{Some, IfErr};
ghost use Rattle.st_life.specs.Stopping.{IsFaulted, IsLeftBy, IsOfSteps, IsStopped};

use st_core::DriveRefusal;
use st_disk::{CrashDisk, Disk, DiskRefusal, Fused};
use st_engine::EngineRefusal;
use st_fold::{Ending, Fault, Life, LifePlan};
use st_list::Items;
use st_mutation::Batch;

/// A life that is over, its disk, the fault that ended it, if any, and its log. There is no life where memory was wanting before it
/// began.
#[derive(Drop)]
pub struct LifeEnded<D> {
    pub life: Option<Life>,
    pub disk: D,
    pub fault: Option<Fault>,
    pub log: Items<Batch>,
}

/// How a life ended, what it left of its disk, and with which fault.
#[derive(Drop)]
pub(crate) struct Stopped<D> {
    pub(crate) ending: Ending,
    pub(crate) disk: D,
    pub(crate) fault: Option<Fault>,
}

/// The end of a life whose steps came to this.
pub(crate) fn stop<D: CrashDisk>(
    plan: &LifePlan,
    fused: Fused<D>,
    outcome: Result<(), DriveRefusal>,
) -> Stopped<D>
    requires { IfErr outcome IsOfSteps }
    ensures { IsStopped D.history D.fault_count plan.now fused outcome result }
{
    let is_blown = fused.blown();
    let faults = fused.faults();
    let disk = fused.into_inner();
    match outcome {
        Ok(()) => leave(plan, disk),
        Err(DriveRefusal::Device(EngineRefusal::DiskFault { .. })) => {
            if is_blown {
                leave(plan, disk)
            } else {
                fault(disk, Fault::Device { faults })
            }
        }
        Err(DriveRefusal::Device(EngineRefusal::Full { length, limit })) => {
            fault(disk, Fault::Full { length, limit })
        }
        Err(DriveRefusal::NoMemory) => fault(disk, Fault::Memory),
        Err(
            DriveRefusal::Device(
                EngineRefusal::Broken { .. }
                | EngineRefusal::Damaged { .. }
                | EngineRefusal::NoMemory,
            ),
        ) => unreachable!(),
    }
}

// A life that nothing failed is closed, or killed where its plan says so.
fn leave<D: CrashDisk>(plan: &LifePlan, mut disk: D) -> Stopped<D>
    ensures { IsLeftBy D.history D.fault_count plan.now.kill disk result }
{
    let Some((_, choice)) = plan.kill else {
        return Stopped {
            ending: Ending::Closed,
            disk,
            fault: None,
        };
    };
    match disk.restart(choice) {
        Ok(()) => Stopped {
            ending: Ending::Killed,
            disk,
            fault: None,
        },
        Err(DiskRefusal::Failed) => {
            let faults = disk.faults();
            fault(disk, Fault::Device { faults })
        }
        Err(DiskRefusal::NoMemory) => fault(disk, Fault::Memory),
    }
}

// A life that was cut short.
fn fault<D>(disk: D, why: Fault) -> Stopped<D>
    ensures { IsFaulted (Some why) disk result }
{
    Stopped {
        ending: Ending::Faulted,
        disk,
        fault: Some(why),
    }
}
