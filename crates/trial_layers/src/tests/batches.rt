//! Batches that one pass puts and others take, on one thread.

ghost use Rattle.std.specs.Prelude.{◌≡◌, ◌<◌, [], All, IfOk, OnOk};
ghost use Rattle.batch_queue.specs.Batches.{count_of, IsBefore};
ghost use Rattle.batch_queue.specs.Passes.{IsPassOf, IsFresh, IsReaders, put_of, others_of, reader_of, IsOpen};
ghost use Rattle.batch_queue.specs.declared.batch.Batch.{Batch};

use batch_queue::{Batch, BatchQueue, Feed, NoMemory, QueuePass};
use pcap_reader::{Capture, Head};
use std::alloc::Global;
use std::sync::Wait;
use std::test::Fail;

/// A file header: little-endian, microseconds, version 2.4, Ethernet.
static HEADER: [u8; 24] = [
    0xd4, 0xc3, 0xb2, 0xa1, 2, 0, 4, 0, 0, 0, 0, 0, 0, 0, 0, 0, 0, 0, 4, 0, 1, 0, 0, 0,
];

/// A record header: 1000 s, fraction 7, captured and original length 2; and its two bytes.
static RECORD: [u8; 18] = [0xe8, 3, 0, 0, 7, 0, 0, 0, 2, 0, 0, 0, 2, 0, 0, 0, 1, 2];

/// The batch with this number, of one record.
fn batch(alloc: Global, number: u64) -> Result<Batch, Fail>
    requires number { number < 100 }
    ensures number { IfOk result (λ b. (b.number ≡ number) × (b.base ≡ number) × (count_of b ≡ 1)) }
{
    let Ok(head) = Head::of(&HEADER) else {
        return Err(Fail::from("no header"));
    };
    let mut bytes = Vec::new(alloc);
    bytes.extend_from_slice(&RECORD)?;
    if bytes.len() > 100 {
        return Err(Fail::from("too long"));
    }
    let Ok(index) = Capture::part(head, bytes.as_slice()).index(alloc) else {
        return Err(Fail::from("no index"));
    };
    if index.count() != 1 || index.tail() != 0 {
        return Err(Fail::from("not one record"));
    }
    Ok(Batch {
        number,
        base: number,
        head,
        bytes,
        index,
    })
}

/// Offers a batch, and gives the number of the batch that comes back, if one does.
fn offer<R: Wait>(rt: &R, queue: &BatchQueue, reader: &mut Feed, batch: Batch) -> Option<u64>
    requires own { IsPassOf queue.now (reader_of reader.old) }
    requires reader { IsReaders (reader_of reader.old) × IsOpen reader.old }
    requires behind { All (λ b. IsBefore b batch) (put_of (reader_of reader.old)) }
    ensures own { IsPassOf queue.now (reader_of reader.new) }
    ensures reader { IsReaders (reader_of reader.new) × IsOpen reader.new }
    ensures behind { (next : Batch) → IsBefore batch next → All (λ b. IsBefore b next) (put_of (reader_of reader.new)) }
{
    match queue.offer(rt, reader, batch) {
        Ok(()) => None,
        Err(back) => Some(back.number),
    }
}

/// Takes a batch, and gives its number.
fn take<R: Wait>(rt: &R, queue: &BatchQueue, pass: &mut QueuePass) -> Option<u64>
    requires own { IsPassOf queue.now pass.old }
    ensures own { IsPassOf queue.now pass.new }
{
    let batch = queue.take(rt, pass)?;
    Some(batch.number)
}

/// A queue with room for two batches, the reader's pass, and two others.
fn open_queue(alloc: Global) -> Result<(BatchQueue, Feed, QueuePass, QueuePass), NoMemory>
    ensures own { IfOk result (λ r. IsPassOf r.0 (reader_of r.1) × IsPassOf r.0 r.2 × IsPassOf r.0 r.3) }
    ensures reader { IfOk result (λ r. IsReaders (reader_of r.1) × IsOpen r.1 × (put_of (reader_of r.1) ≡ [])) }
{
    let (queue, reader, mut passes) = BatchQueue::open(alloc, 2, 2)?;
    let third = take_pass(&queue, &mut passes)?;
    let second = take_pass(&queue, &mut passes)?;
    Ok((queue, reader, second, third))
}

/// The last of the passes that were opened.
fn take_pass(_queue: &BatchQueue, passes: &mut Vec<QueuePass>) -> Result<QueuePass, NoMemory>
    requires { All (λ pass. IsPassOf _queue.now pass × IsFresh pass × (¬ IsReaders pass) × (others_of pass ≡ 0))
        passes.old.items }
    ensures last { IfOk result (λ pass. IsPassOf _queue.now pass) }
    ensures others { OnOk result (All
        (λ pass. IsPassOf _queue.now pass × IsFresh pass × (¬ IsReaders pass) × (others_of pass ≡ 0)) passes.new.items) }
{
    passes.pop().ok_or(NoMemory)
}

#[test]
fn batches_go_through_in_order(rt: HostRuntime) -> Result<(), Fail> {
    let alloc = rt.alloc();
    let (queue, mut reader, mut second, mut third) = open_queue(alloc)?;
    assert_eq!(rt; take(&rt, &queue, &mut second), None);
    assert_eq!(rt; offer(&rt, &queue, &mut reader, batch(alloc, 0)?), None);
    assert_eq!(rt; offer(&rt, &queue, &mut reader, batch(alloc, 1)?), None);
    assert_eq!(rt; offer(&rt, &queue, &mut reader, batch(alloc, 2)?), Some(2));
    assert_eq!(rt; take(&rt, &queue, &mut second), Some(0));
    assert_eq!(rt; offer(&rt, &queue, &mut reader, batch(alloc, 3)?), None);
    assert_eq!(rt; take(&rt, &queue, &mut third), Some(1));
    let mut all = queue.unite(second, third);
    assert_eq!(rt; take(&rt, &queue, &mut all), Some(3));
    queue.end(&mut reader);
    let mut all = queue.unite(reader.into_pass(), all);
    assert_eq!(rt; take(&rt, &queue, &mut all), None);
    Ok(())
}

/// Compiles only where a reference to the value may be shared with other threads.
fn check_sync<T: Sync>(_value: &T) {}

/// Compiles only where the value may be sent to another thread, and gives it back.
fn check_send<T: Send>(value: T) -> T
    ensures { result ≡ value }
{
    value
}

#[test]
fn threads_share_a_queue(rt: HostRuntime) -> Result<(), Fail> {
    let (queue, reader, mut second, third) = open_queue(rt.alloc())?;
    check_sync(&queue);
    assert!(rt; !queue.is_ended(&mut second));
    let mut reader = check_send(reader);
    queue.end(&mut reader);
    assert!(rt; queue.is_ended(&mut second));
    let all = queue.unite(reader.into_pass(), second);
    let mut all = queue.unite(all, check_send(third));
    assert_eq!(rt; take(&rt, &queue, &mut all), None);
    Ok(())
}
