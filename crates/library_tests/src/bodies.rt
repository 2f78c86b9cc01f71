//! Sources of frames that are no frames in memory, and what is copied.
use header_lists::HeaderList;
use http_bodies::{DumpError, Frame, FrameError, FrameSource, http_dump_body};
use http_header::{HeaderName, HeaderValue};
use schema_values::List;
use std::alloc::Global;
use std::test::Fail;

// Gives frames of one byte, so many, and tells nothing of what is left.
#[derive(Drop)]
struct Countdown {
    left: u32,
}

impl FrameSource for Countdown {
    ghost use Rattle.std.specs.Prelude.{None, true};

    ghost state = { λ s. record { left = None; faults = 0; can_fail = true } };

    fn next_frame(&mut self, alloc: Global) -> Result<Option<Frame>, FrameError> {
        if self.left == 0 {
            return Ok(None);
        }
        match List::from_bytes(alloc, b"x") {
            Ok(bytes) => {
                self.left -= 1;
                Ok(Some(Frame::Bytes(bytes)))
            }
            Err(_) => Err(FrameError::OutOfMemory),
        }
    }
}

#[test]
fn a_boxed_source_of_ones_own_is_dumped(rt: HostRuntime) -> Result<(), Fail> {
    let alloc = rt.alloc();
    let mut source: Box<dyn FrameSource> = Box::new(alloc, Countdown { left: 3 })?;
    assert_eq!(rt; http_dump_body(alloc, &mut source, 3), Ok(3));
    let mut source: Box<dyn FrameSource> = Box::new(alloc, Countdown { left: 4 })?;
    assert_eq!(rt;
        http_dump_body(alloc, &mut source, 3),
        Err(DumpError::FrameBudget)
    );
    Ok(())
}

#[test]
fn a_frame_and_its_copy_have_the_same_data(rt: HostRuntime) -> Result<(), Fail> {
    let alloc = rt.alloc();
    let frame = Frame::Bytes(List::from_bytes(alloc, b"abc")?);
    assert_eq!(rt; frame.copy(alloc)?.data(), b"abc".as_slice());
    let mut lines = HeaderList::new(alloc);
    lines.append(
        HeaderName::from_static("x-t"),
        HeaderValue::from_static("1"),
    )?;
    match Frame::Trailers(lines).copy(alloc)? {
        Frame::Trailers(lines) => assert_eq!(rt; lines.lines().len(), 1),
        Frame::Bytes(_) => assert!(rt; false),
    }
    Ok(())
}
