// The lines of images, counted and worked out.
use image::read_image;
use lines::{Lines, lines_of};
use std::test::Fail;
use word::{Clamp, Wrap};

fn lines_in(image: &[u8]) -> Result<Lines, Fail> {
    let t = read_image(image).map_err(|_| Fail::new("refused"))?;
    Ok(lines_of(&t))
}

// Every tenth packet is marked in field 0.
#[test]
fn sampling(rt: HostRuntime) -> Result<(), Fail> {
    let image = [
        1, 2, 1, 8, 4, 1, 16, 24, 9, 6, 1, 0, 0, 24, 1, 0, 16, 24, 0, 7, 0, 0, 24, 0, 1, 16, 16,
        24, 1, 8,
    ];
    let lines = lines_in(&image)?;
    assert_eq!(rt; lines.count, 11);
    let tenth = lines.work_out::<Wrap>(&[7, 7], &[9]);
    assert_eq!(rt; &tenth[..11], [9, 1, 1, 1, 0, 0, 0, 1, 1, 0, 0].as_slice());
    let ninth = lines.work_out::<Wrap>(&[7, 7], &[8]);
    assert_eq!(rt; &ninth[..11], [8, 0, 1, 7, 0, 8, 0, 0, 9, 9, 9].as_slice());
    Ok(())
}

// Flowlet switching: a packet that comes more than 5 ticks after the last one may take a new hop.
#[test]
fn flowlets(rt: HostRuntime) -> Result<(), Fail> {
    let image = [
        1, 4, 2, 7, 2, 3, 0, 16, 3, 3, 24, 5, 3, 6, 3, 0, 17, 1, 8, 0, 16, 0, 0, 2, 17,
    ];
    let lines = lines_in(&image)?;
    assert_eq!(rt; lines.count, 10);
    let late = lines.work_out::<Clamp>(&[20, 3, 0, 0], &[10, 1]);
    assert_eq!(rt; &late[..10], [10, 1, 10, 1, 3, 3, 20, 3, 20, 3].as_slice());
    let soon = lines.work_out::<Clamp>(&[12, 3, 0, 0], &[10, 1]);
    assert_eq!(rt; &soon[..10], [10, 1, 2, 0, 3, 1, 12, 1, 12, 1].as_slice());
    Ok(())
}
