// What a program has to say of what it read: the text of the bytes that came, or none where a read failed. The bytes
// that came may be a face, and those that did not may refuse it.
//
// 4,096 bytes of a file are enough: the text hangs on them alone (`enough_read` of report and of materialtext). So what is
// cut off there is of no account.
ghost use Rattle.std.specs.Prelude.{ℕ, ◌≡◌, ◌≤◌, length, IfOk};
ghost use Rattle.input.specs.Counts.{IsPrefixLen};
ghost use Rattle.text.specs.Printing.{Counted};
ghost use Rattle.facefile.specs.Format.{face_of};
ghost use Rattle.rendering.specs.Room.{text_bytes};
ghost use Rattle.report.specs.Faces.{FacesText};
ghost use Rattle.materialtext.specs.Material.{material_bytes, MaterialText};
ghost use Rattle.filter.specs.Reply.{TextOf, Replies};

use input::Input;
use std::io;

// What failed: a read of standard input, or a write to standard output.
pub enum Fault {
    Input(io::Error),
    Output(io::Error),
}

// The text that a program prints of a face file, in at most so many bytes.
pub trait Text {
    ghost Says: { TextOf };

    ghost most: { ℕ };

    // Puts the text of a file to the start of a buffer, and answers its length.
    fn text(file: &[u8], text: &mut [u8]) -> usize
        ensures says { Says (face_of file.now) text.old text.new result }
        ensures counted { Counted most text.new result };
}

// A program that prints one text of a face file.
pub trait Program: Text {
    // Its name, for what it says on standard error.
    const NAME: &'static str;

    // Prints the text of the bytes that came into a room, by way of a buffer that is as long as its own texts ask.
    fn print(out: &impl Print, input: Input, room: &[u8]) -> Result<(), Fault>
        requires came { IsPrefixLen input.length room.now }
        requires enough { 4_096 ≡ length room.now };
}

// Document 01's `faces`: the outer sizes, and the face that fits 64,000 by 64,000.
pub struct Faces;

impl Text for Faces {
    ghost Says = { FacesText };

    ghost most = { text_bytes };

    fn text(file: &[u8], text: &mut [u8]) -> usize {
        report::faces_text(file, text)
    }
}

impl Program for Faces {
    const NAME: &'static str = "faces";

    fn print(out: &impl Print, input: Input, room: &[u8]) -> Result<(), Fault> {
        let mut text = [0u8; report::TEXT];
        print_text::<Faces>(out, input, room, &mut text)
    }
}

// `material`: the material sheet of that face.
pub struct Material;

impl Text for Material {
    ghost Says = { MaterialText };

    ghost most = { material_bytes };

    fn text(file: &[u8], text: &mut [u8]) -> usize {
        materialtext::material_text(file, text)
    }
}

impl Program for Material {
    const NAME: &'static str = "material";

    fn print(out: &impl Print, input: Input, room: &[u8]) -> Result<(), Fault> {
        let mut text = [0u8; materialtext::TEXT];
        print_text::<Material>(out, input, room, &mut text)
    }
}

// What a program says of the bytes that came into a room.
#[tactic(auto, unfolding(input::specs::Outcome::arrived, crate::specs::Reply::RepliesBy))]
pub fn reply<P: Text>(input: Input, room: &[u8], text: &mut [u8]) -> io::Result<usize>
    requires { IsPrefixLen input.length room.now }
    ensures replies { Replies P.Says input room.now text.old text.new result }
    ensures counted { IfOk result (λ n. Counted P.most text.new n) }
{
    let length = input.came()?;
    Ok(P::text(&room[..length], text))
}

// Prints that. The room takes all that the text hangs on, and the buffer every text of the program. Where a read failed
// nothing is printed.
fn print_text<P: Text>(
    out: &impl Print,
    input: Input,
    room: &[u8],
    text: &mut [u8],
) -> Result<(), Fault>
    requires came { IsPrefixLen input.length room.now }
    requires enough { 4_096 ≡ length room.now }
    requires text_long { P.most ≤ length text.old }
{
    let length = reply::<P>(input, room, text).map_err(Fault::Input)?;
    out.write_all(&text[..length]).map_err(Fault::Output)
}
