//! Jobs that go through a queue.
use job_queue::{Job, new_queue, pop, push, reunite};
use std::test::Fail;

#[test]
fn jobs_come_out_in_order(rt: HostRuntime) -> Result<(), Fail> {
    let (queue, mut sender, mut receiver) = new_queue(rt.alloc())?;
    assert!(rt; pop(&rt, &queue, &mut receiver) == None);
    for number in 0..64u32 {
        let job = Job::Frame { number, slices: 1 };
        assert!(rt; push(&rt, &queue, &mut sender, job));
    }
    assert!(rt; !push(&rt, &queue, &mut sender, Job::End));
    for number in 0..64u32 {
        let job = Job::Frame { number, slices: 1 };
        assert!(rt; pop(&rt, &queue, &mut receiver) == Some(job));
    }
    assert!(rt; push(&rt, &queue, &mut sender, Job::End));
    assert!(rt; pop(&rt, &queue, &mut receiver) == Some(Job::End));
    reunite(&queue, &mut sender, receiver);
    Ok(())
}
