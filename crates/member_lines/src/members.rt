// Members, appended to a line.
ghost use Rattle.std.specs.Prelude.{◌≡◌, ◌+◌, ◌≤◌, ◌++◌, length};
ghost use Rattle.member_lines.specs.Members.{lead_text, member_text, named_text, named_signed_text, named_hex2_text, named_hex3_text, named_hex4_text};

use fh_base::Line;

/// Appends a space, a name and an equals sign.
pub fn lead(line: &mut Line, name: &[u8])
    requires { length line.old + length name.now + 2 ≤ 512 }
    ensures text { line.new ≡ line.old ++ lead_text name.now }
    ensures short { length line.new ≤ length line.old + length name.now + 2 }
{
    line.text(b" ");
    line.text(name);
    line.text(b"=");
}

/// Appends a space, a name, an equals sign and a word.
pub fn named_word(line: &mut Line, name: &[u8], word: &[u8])
    requires { length line.old + length name.now + length word.now + 2 ≤ 512 }
    ensures text { line.new ≡ line.old ++ member_text name.now word.now }
    ensures short { length line.new ≤ length line.old + length name.now + length word.now + 2 }
{
    lead(line, name);
    line.text(word);
}

/// Appends a space, a name, an equals sign and a number.
pub fn named(line: &mut Line, name: &[u8], n: u64)
    requires { length line.old + length name.now + 22 ≤ 512 }
    ensures text { line.new ≡ line.old ++ named_text name.now n }
    ensures short { length line.new ≤ length line.old + length name.now + 22 }
{
    lead(line, name);
    line.number(n);
}

/// Appends a space, a name, an equals sign and a number with a sign.
pub fn named_signed(line: &mut Line, name: &[u8], n: i64)
    requires { length line.old + length name.now + 22 ≤ 512 }
    ensures text { line.new ≡ line.old ++ named_signed_text name.now n }
    ensures short { length line.new ≤ length line.old + length name.now + 22 }
{
    lead(line, name);
    line.signed(n);
}

/// Appends a space, a name, an equals sign and the two hexadecimal digits of 8 bits.
pub fn named_hex2(line: &mut Line, name: &[u8], n: u8)
    requires { length line.old + length name.now + 4 ≤ 512 }
    ensures text { line.new ≡ line.old ++ named_hex2_text name.now n }
    ensures short { length line.new ≤ length line.old + length name.now + 4 }
{
    lead(line, name);
    line.hex2(n);
}

/// Appends a space, a name, an equals sign and the three hexadecimal digits of the low 12 bits.
pub fn named_hex3(line: &mut Line, name: &[u8], n: u16)
    requires { length line.old + length name.now + 5 ≤ 512 }
    ensures text { line.new ≡ line.old ++ named_hex3_text name.now n }
    ensures short { length line.new ≤ length line.old + length name.now + 5 }
{
    lead(line, name);
    line.hex3(n);
}

/// Appends a space, a name, an equals sign and the four hexadecimal digits of 16 bits.
pub fn named_hex4(line: &mut Line, name: &[u8], n: u16)
    requires { length line.old + length name.now + 6 ≤ 512 }
    ensures text { line.new ≡ line.old ++ named_hex4_text name.now n }
    ensures short { length line.new ≤ length line.old + length name.now + 6 }
{
    lead(line, name);
    line.hex4(n);
}
