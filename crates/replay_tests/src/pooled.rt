// Frames in memory that was given back.
use fh_base::NoMemory;
use frame_ways::FramePool;

#[test]
fn a_frame_has_its_own_bytes(rt: HostRuntime) -> Result<(), NoMemory> {
    let mut pool = FramePool::new(rt.alloc());
    let long = pool.copy_of(b"a longer frame")?;
    assert_eq!(rt; long.as_slice(), b"a longer frame".as_slice());
    pool.give_back(long);
    for _ in 0..3 {
        let short = pool.copy_of(b"short")?;
        assert_eq!(rt; short.as_slice(), b"short".as_slice());
        let other = pool.copy_of(b"another")?;
        assert_eq!(rt; other.as_slice(), b"another".as_slice());
        pool.give_back(short);
        pool.give_back(other);
    }
    Ok(())
}
