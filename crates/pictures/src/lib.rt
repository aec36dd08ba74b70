//! The text of an explanation as SVG pictures: a resource grid, and the windows of delay management (this project's profile).
//!
//! [`draw_grid`] and [`draw_windows`] read the text that the command `explain` writes, test it, and write a picture. The grid has for each
//! endpoint a band of the downlink and one of the uplink, in which the cells of some subframes are shown with the colour of what became of
//! them. The picture of windows has for each flow of commands or data the window in which it is sent, the one in which it is awaited, and
//! bars of the arrivals at their times; it is made in one pass and keeps numbers only.
//!
//! Below them, each in modules of its own:
//!
//! - [`read_grid`] and [`read_arrivals`] test a complete text and answer what a picture is made of, or the first line that fails and the
//!   first reason that holds there; [`cell_of`] answers what the words of a line draw;
//! - the elements of a picture in Scalable Vector Graphics (W3C SVG 1.1) append rectangles, paths and texts to [`Bytes`](fh_base::Bytes), a
//!   line each. Lengths are in pixels, and y grows downwards. No text is escaped: a caller passes none of the characters `<`, `>`, `&` and
//!   `"`.
#![tactic(auto)]

mod areas;
mod arrival_reading;
mod arrivals;
mod axis;
mod bands;
mod bars;
mod cells;
mod classes;
mod drawing;
mod endpoints;
mod faults;
mod forms;
mod frames;
mod labels;
mod lines;
mod list;
mod looks;
mod numbers;
mod opening;
mod paths;
mod pieces;
mod reading;
mod rects;
mod rows;
mod scales;
mod sizes;
mod spans;
mod tallies;
mod texts;
mod window_drawing;
mod window_rows;
mod windows;

pub use arrival_reading::{Gathered, read_arrivals};
pub use arrivals::{Arrival, Flow, Kind, Margins};
pub use cells::{Cell, Look, cell_of, names_cells};
pub use classes::Class;
pub use drawing::draw_grid;
pub use endpoints::Endpoint;
pub use faults::{DrawFault, TextRefusal, TextWhy};
pub use lines::{head_line, is_end};
pub use list::Endpoints;
pub use numbers::{after, digit, integer, is_free, is_id, is_mask, keyed, numeral};
pub use opening::{put_closing, put_opening};
pub use paths::{put_across, put_down};
pub use reading::read_grid;
pub use rects::{Area, put_hatched, put_rect, put_titled};
pub use rows::Rows;
pub use scales::{or_zero, scaled};
pub use tallies::{COLUMNS, Counts, Row};
pub use texts::{Anchor, put_text};
pub use window_drawing::draw_windows;
pub use windows::{Window, Windows, column_of, far_of, near_of};
