// Cells at the edges of the subframes.
use fh_base::{Bytes, PlainSink};
use pictures::draw_grid;
use std::test::Fail;

const HEAD: &[u8] = b"explain 1\nendpoint 0000 ordinary 30 1 static none\n";

#[test]
fn the_end_of_the_span_is_not_drawn(rt: HostRuntime) -> Result<(), Fail> {
    let alloc = rt.alloc();
    let mut empty = Bytes::new(alloc);
    empty.push_all(HEAD)?;
    empty.push_all(b"end\n")?;
    let mut nothing = PlainSink::new(alloc);
    assert_eq!(rt;
        draw_grid(alloc, empty.as_slice(), 1, 0, 1, &mut nothing),
        Ok(())
    );
    for (line, drawn) in [
        (
            b"dl 15360000000 0000 1 0 0 0 prb=0 num=1 section=1 mask=fff shown from=1\n".as_slice(),
            true,
        ),
        (
            b"dl 16895999999 0000 1 0 0 0 prb=0 num=1 section=1 mask=fff shown from=1\n",
            true,
        ),
        (
            b"dl 15359999999 0000 1 0 0 0 prb=0 num=1 section=1 mask=fff shown from=1\n",
            false,
        ),
        (
            b"dl 16896000000 0000 1 0 0 0 prb=0 num=1 section=1 mask=fff shown from=1\n",
            false,
        ),
        (
            b"dl 15360000000 0000 1 0 0 0 prb=0 num=1 section=1 mask=fff missing\n",
            false,
        ),
    ] {
        let mut text = Bytes::new(alloc);
        text.push_all(HEAD)?;
        text.push_all(line)?;
        text.push_all(b"end\n")?;
        let mut out = PlainSink::new(alloc);
        assert_eq!(rt;
            draw_grid(alloc, text.as_slice(), 1, 0, 1, &mut out),
            Ok(())
        );
        assert_eq!(rt; out.bytes() != nothing.bytes(), drawn);
    }
    Ok(())
}
