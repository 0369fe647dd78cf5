//! The flash as text and as SVG, with the counts of its pages.

use crate::laid::flash;
use chip_map::{MapFault, Marked, PageCounts, count, survey, write_svg, write_text};

/// The text with object 3 highlighted.
const TEXT: &str = "   0 #-#?!...........................
   1 xxxxxxxxxxxxxxxxxxxxxxxxxxxxxxxx
   2 c@@.............................
   3 ................................
   4 ................................

# current              2
@ highlighted          2
c checkpoint           1
- stale                1
. erased             120
? invalid              1
! uncorrectable        1
x bad                 32
";

/// The beginning of the text in colours.
const COLOURED: &str = "   0 \x1b[0;32m#\x1b[0;34m-\x1b[0;32m#\x1b[0;35m?\x1b[0;31m!\x1b[0m.";

/// The beginning of the SVG.
const HEAD: &str =
    "<svg xmlns=\"http://www.w3.org/2000/svg\" viewBox=\"0 0 840 282\" width=\"840\" height=\"282\" font-family=\"sans-serif\" font-size=\"12\">
<title>5 blocks of 32 pages of 512 bytes</title>
<rect width=\"840\" height=\"282\" fill=\"#ffffff\"/>
";

/// The row of block 2: a cell of the checkpoint, two of the object, 29 erased ones.
const ROW: &str = "<text x=\"54\" y=\"238\" text-anchor=\"end\">2</text>
<rect x=\"60\" y=\"228\" width=\"12\" height=\"12\" fill=\"#009e73\"/>
<rect x=\"72\" y=\"228\" width=\"24\" height=\"12\" fill=\"#f0e442\"/>
<rect x=\"96\" y=\"228\" width=\"348\" height=\"12\" fill=\"#ececec\"/>
";

#[test]
fn draws_each_state(rt: HostRuntime) {
    let alloc = rt.alloc();
    let mut nand = flash(&rt, alloc);
    let chip = survey(alloc, &mut nand).expect(&rt, "a survey");
    let counts = PageCounts {
        bad: 32,
        erased: 120,
        uncorrectable: 1,
        invalid: 1,
        stale: 1,
        current: 5,
    };
    assert_eq!(rt; count(&chip), counts);
    let mut text = Vec::new(alloc);
    write_text(alloc, &mut text, &chip, Marked::Object(3), false).expect(&rt, "a text");
    assert_eq!(rt; text.as_slice(), TEXT.as_bytes());
    let mut coloured = Vec::new(alloc);
    write_text(alloc, &mut coloured, &chip, Marked::Nothing, true).expect(&rt, "a text");
    assert!(rt; coloured.starts_with(COLOURED.as_bytes()));
}

#[test]
fn draws_rows_of_cells(rt: HostRuntime) {
    let alloc = rt.alloc();
    let mut nand = flash(&rt, alloc);
    let chip = survey(alloc, &mut nand).expect(&rt, "a survey");
    let mut shown = Vec::new(alloc);
    write_svg(alloc, &mut shown, &chip, Marked::Object(3)).expect(&rt, "a drawing");
    assert!(rt; shown.starts_with(HEAD.as_bytes()));
    assert!(rt; shown.windows(ROW.len()).any(|part| part == ROW.as_bytes()));
    assert!(rt; shown.ends_with(b"</svg>\n"));
    let mut small = [0u8; 100];
    let refused = write_svg(alloc, &mut &mut small[..], &chip, Marked::Nothing);
    assert_eq!(rt; refused, Err(MapFault::Output));
}
