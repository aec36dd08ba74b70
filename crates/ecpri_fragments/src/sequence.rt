// The sequence field of messages of types 0 and 2.
ghost use Rattle.std.specs.Prelude.{◌≡◌, ◌<◌, length};
ghost use Rattle.ecpri_fragments.specs.Sequence.{seq_field_of};

/// The sequence field (ecpriSeqid) of an eCPRI message of type 0 or 2: the sequence id, the E bit, which marks
/// the last or only fragment of a message, and the subsequence id, from 0 to 127.
#[derive(Clone, Copy, Debug, PartialEq, Eq)]
pub struct SeqField {
    pub seq: u8,
    pub last: bool,
    pub sub: u8,
}

/// Reads the two bytes of a sequence field: sequence id 8 bits, E 1, subsequence id 7.
#[tactic(auto, using(std::proofs::lemmas::Grind::common_steps, bfp_codec::proofs::Field::fields))]
pub fn read_seq(bytes: [u8; 2]) -> SeqField
    ensures reads { result ≡ seq_field_of bytes }
    ensures sub { result.sub < 128 }
{
    SeqField {
        seq: bytes[0],
        last: bytes[1] >> 7 == 1,
        sub: bytes[1] & 0x7f,
    }
}

/// The two bytes of a sequence field, whose subsequence is under 128. `read_seq` reads them back.
#[tactic(auto, using(std::proofs::lemmas::Grind::common_steps, bfp_codec::proofs::Field::fields))]
pub fn put_seq(f: SeqField) -> [u8; 2]
    requires { f.sub < 128 }
    ensures len { length result ≡ 2 }
    ensures reads { seq_field_of result ≡ f }
{
    let end = if f.last { 0x80 } else { 0 };
    [f.seq, end | f.sub]
}
