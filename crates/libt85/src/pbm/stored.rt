//! The state of a PBM reader as the struct stores it.

ghost use Rattle.std.specs.Prelude.{◌≡◌, ◌≤◌, [], IfSome, IsNone};
ghost use Rattle.libt85.specs.Pbm.{InPbmHeader, PbmHasEnded, form_number, form_of, header_reader_of, header_place, row_reader_of};

use crate::pbm::{ENDED, HEADER, MOST_WIDTH, ROWS, T85Pbm, VERSION};
use pbm_core::{Form, HeaderReader, Place, RowReader, Size};

impl T85Pbm {
    /// The state before the first byte.
    pub(super) fn first() -> T85Pbm
        ensures { InPbmHeader result [] }
    {
        T85Pbm {
            version: VERSION,
            next: HEADER,
            width: 0,
            height: 0,
            is_plain: 0,
            rows_left: 0,
            filled: 0,
            made: 0,
            place: 0,
            status: 0,
            spare: 0,
            value: 0,
            reserved: [0; 3],
        }
    }

    /// The size in the struct, if an image may have it.
    pub(super) fn size(&self) -> Option<Size>
        ensures some { IfSome result
            (λ size. (size.width ≡ self.now.width) × (size.height ≡ self.now.height)) }
        ensures none { IsNone result → 1 ≤ self.now.width → self.now.width ≤ 1048576 →
            ¬ (1 ≤ self.now.height) }
    {
        let (width, height) = (self.width, self.height);
        if width == 0 || width > MOST_WIDTH || height == 0 {
            return None;
        }
        Some(Size { width, height })
    }

    pub(super) fn form(&self) -> Form
        ensures { result ≡ form_of self.now.is_plain }
    {
        if self.is_plain == 0 {
            Form::Raw
        } else {
            Form::Plain
        }
    }

    /// The reader of the header.
    pub(super) fn header_reader(&self) -> HeaderReader
        ensures { result ≡ header_reader_of self.now }
    {
        HeaderReader {
            place: place_of(self.place),
            form: self.form(),
            width: self.width,
            value: self.value,
        }
    }

    /// The reader of the row.
    pub(super) fn row_reader(&self) -> RowReader
        ensures { result ≡ row_reader_of self.now }
    {
        RowReader {
            filled: self.filled,
            made: self.made,
        }
    }

    /// Stores the reader of the header.
    pub(super) fn keep(&mut self, reader: HeaderReader)
        ensures reader { header_reader_of self.new ≡ reader }
        ensures version { self.new.version ≡ self.old.version }
        ensures next { self.new.next ≡ self.old.next }
    {
        self.place = number_of_place(reader.place);
        self.is_plain = number_of_form(reader.form);
        self.width = reader.width;
        self.value = reader.value;
    }

    /// Stores the header, before the first row.
    pub(super) fn enter_rows(&mut self, size: Size, form: Form)
        ensures version { self.new.version ≡ self.old.version }
        ensures next { self.new.next ≡ 1 }
        ensures width { self.new.width ≡ size.width }
        ensures height { self.new.height ≡ size.height }
        ensures form { form_of self.new.is_plain ≡ form }
        ensures form_number { self.new.is_plain ≡ form_number form }
        ensures left { self.new.rows_left ≡ size.height }
        ensures filled { self.new.filled ≡ 0 }
        ensures made { self.new.made ≡ 0 }
    {
        self.next = ROWS;
        self.width = size.width;
        self.height = size.height;
        self.is_plain = number_of_form(form);
        self.rows_left = size.height;
        self.filled = 0;
        self.made = 0;
    }

    /// Stores how the PBM has ended.
    pub(super) fn end(&mut self, status: u8)
        ensures ended { self.old.version ≡ 1 → PbmHasEnded self.new status }
        ensures same_width { self.new.width ≡ self.old.width }
        ensures same_form { self.new.is_plain ≡ self.old.is_plain }
    {
        self.next = ENDED;
        self.status = status;
    }
}

/// The place with this number.
fn place_of(number: u8) -> Place
    ensures { result ≡ header_place number }
{
    match number {
        0 => Place::Start,
        1 => Place::Letter,
        2 => Place::Letters,
        3 => Place::Gap,
        4 => Place::Comment,
        5 => Place::Digits,
        _ => Place::LastComment,
    }
}

fn number_of_place(place: Place) -> u8
    ensures { header_place result ≡ place }
{
    match place {
        Place::Start => 0,
        Place::Letter => 1,
        Place::Letters => 2,
        Place::Gap => 3,
        Place::Comment => 4,
        Place::Digits => 5,
        Place::LastComment => 6,
    }
}

fn number_of_form(form: Form) -> u32
    ensures form { form_of result ≡ form }
    ensures number { result ≡ form_number form }
{
    match form {
        Form::Raw => 0,
        Form::Plain => 1,
    }
}
