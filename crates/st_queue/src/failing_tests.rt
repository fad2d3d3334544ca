ghost use Rattle.std.specs.Prelude.{◌≡◌, ℕ, IfSome, IsSome, Some};
ghost use Rattle.st_queue.specs.declared.frame.QueueRefusal.TheVariants.{DiskFault};

use super::*;
use st_disk::{Disk, Failing, Memory};
use std::test::Fail;

const LIMIT: u64 = 1 << 30;

// A call that fails, counted from 1 with the six of the mount; which of `recycle`, `enter_next` and `append` answers the
// fault; and what then stands in file 0: how many bytes, the file's gate and the first frame's. The other calls pass.
const FAILING: [(u64, u8, usize, Option<u8>, Option<u8>); 10] = [
    (7, 0, 0, None, None),
    (8, 0, 1, Some(0), None),
    (9, 0, 1, Some(0), None),
    (10, 0, 29, Some(0), Some(0)),
    (11, 1, 29, Some(0), Some(0)),
    (12, 1, 29, Some(1), Some(0)),
    (13, 2, 29, Some(1), Some(0)),
    (14, 2, 43, Some(1), Some(0)),
    (15, 2, 43, Some(1), Some(0)),
    (16, 2, 43, Some(1), Some(1)),
];

// Which of the three calls is refused, and why.
fn first_refusal<D: Disk>(queue: &mut Queue<D>) -> Option<(u8, QueueRefusal)>
    ensures { IfSome result (λ refused. (faults : ℕ) → refused.1 ≡ DiskFault faults → queue.new.state.broken ≡ Some faults) }
{
    if !queue.due() {
        return None;
    }
    if let Err(refusal) = queue.recycle() {
        return Some((0, refusal));
    }
    if let Err(refusal) = queue.enter_next() {
        return Some((1, refusal));
    }
    if let Err(refusal) = queue.append(&[5]) {
        return Some((2, refusal));
    }
    None
}

// Whether each of the three calls is refused for a fault from before, with its count.
fn stays_broken<D: Disk>(queue: &mut Queue<D>, faults: u64) -> bool
    requires { queue.old.state.broken ≡ Some faults }
{
    let broken = QueueRefusal::Broken { faults };
    queue.recycle() == Err(broken)
        && queue.enter_next() == Err(broken)
        && queue.append(&[5]) == Err(broken)
}

#[test]
fn each_failing_call_breaks_the_queue(rt: HostRuntime) -> Result<(), Fail> {
    let alloc = rt.alloc();
    for (call, step, count, gate, first) in FAILING {
        let disk = Failing::new(Memory::new(alloc), vec![in alloc; call]?);
        let (mut queue, _) = Queue::mount(alloc, disk, LIMIT, LIMIT).map_err(|e| e.why)?;
        match first_refusal(&mut queue) {
            Some((refused, QueueRefusal::DiskFault { faults })) => {
                assert_eq!(rt; (refused, faults), (step, 1), "call {call}");
                assert!(rt; stays_broken(&mut queue, faults), "call {call}");
            }
            _ => assert!(rt; false, "call {call} passed"),
        }
        let disk = queue.dismount();
        assert_eq!(rt; disk.faults(), 1);
        let below = disk.into_inner();
        let bytes = below.bytes(0);
        assert_eq!(rt; bytes.len(), count, "call {call}");
        assert_eq!(rt;
            (bytes.first().copied(), bytes.get(28).copied()),
            (gate, first),
            "call {call}"
        );
    }
    Ok(())
}
