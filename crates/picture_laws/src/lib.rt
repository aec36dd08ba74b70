//! Laws of pictures: of which bytes they are, what is drawn of each line of the text of a resource grid, and where all of it is.
//!
//! The functions here do nothing: each one's contract is its law, stated in `specs/`.
#![tactic(auto)]

ghost use Rattle.picture_laws.specs.Laws.{GridsArePlain, LinesAreDrawn, PicturesAreLines, WindowsArePlain, WindowsHavePanels};

/// A picture is its head, what each line of the text draws, in their order, and its foot.
pub fn pictures_are_lines()
    ensures { PicturesAreLines }
{}

/// A line of cells with samples, and one that says why cells have none, draws one rectangle of its class where its symbol begins in the
/// subframes, inside the band of its endpoint and its way. All other lines draw nothing.
pub fn lines_are_drawn()
    ensures { LinesAreDrawn }
{}

/// Each byte of the picture of a resource grid is a line feed or printable ASCII.
pub fn grids_are_plain()
    ensures { GridsArePlain }
{}

/// Each byte of the picture of the windows is a line feed or printable ASCII.
pub fn windows_are_plain()
    ensures { WindowsArePlain }
{}

/// The picture of the windows is made of windows, bars, lines and texts. Each of them is in the picture, and each window and each bar
/// of a row in its panel of this row.
pub fn windows_have_panels()
    ensures { WindowsHavePanels }
{}
