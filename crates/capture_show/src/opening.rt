// What is before and after the lines.
ghost use Rattle.std.specs.Prelude.{◌≡◌};
ghost use Rattle.capture_show.specs.Texts.{front_text, end_text};

/// The opening bracket of JSON.
pub fn opening(json: bool) -> &'static [u8]
    ensures { result.now ≡ front_text json }
{
    if json { b"[" } else { b"" }
}

/// The closing bracket of JSON, and a line feed.
pub fn ending(json: bool) -> &'static [u8]
    ensures { result.now ≡ end_text json }
{
    if json { b"]\n" } else { b"" }
}
