//! What holds of all bytes. Each is a function without arguments, which does nothing and ensures the law.
ghost use Rattle.m17_book.specs.Flaws.{RecordFlaw};
ghost use Rattle.m17_book.specs.Laws.{TracesAreExact, BooksAreExact, BookFormsAreExact, IsClear};
ghost use Rattle.m17_book.specs.Records.{SpellsRecord};
ghost use Rattle.m17_book.specs.declared.version.Version.{Version};

/// Each byte list is the trace of one heard list, or is refused as a trace for one reason, and not both.
#[inline]
pub fn traces_are_exact()
    ensures { TracesAreExact }
{
    m17_fields::laws::fields_of_16_bits_are_exact();
    m17_fields::laws::fields_of_64_bits_are_exact();
}

/// Each byte list is the book of one header and one list of records, or is refused as a book for one reason, and not
/// both: of each version for itself.
#[inline]
pub fn books_are_exact()
    ensures { BooksAreExact }
{
    m17_fields::laws::fields_of_16_bits_are_exact();
    m17_fields::laws::fields_of_32_bits_are_exact();
    m17_fields::laws::fields_of_48_bits_are_exact();
    m17_fields::laws::fields_of_64_bits_are_exact();
    m17_callsign::laws::each_address_has_one_callsign();
    m17_stream::laws::one_spelling();
    m17_stream::laws::reading_is_exact();
}

/// The same of books of whatever size, as `Reader` has them.
#[inline]
pub fn book_forms_are_exact()
    ensures { BookFormsAreExact }
{
    m17_fields::laws::fields_of_16_bits_are_exact();
    m17_fields::laws::fields_of_32_bits_are_exact();
    m17_fields::laws::fields_of_48_bits_are_exact();
    m17_fields::laws::fields_of_64_bits_are_exact();
    m17_callsign::laws::each_address_has_one_callsign();
    m17_stream::laws::one_spelling();
    m17_stream::laws::reading_is_exact();
}

/// No record's spelling begins another one's, and what begins with one has no flaw.
#[inline]
pub(crate) fn records_are_clear()
    ensures { (version : Version) → IsClear (SpellsRecord version) (RecordFlaw version) }
{
    m17_fields::laws::fields_of_16_bits_are_exact();
    m17_fields::laws::fields_of_32_bits_are_exact();
    m17_fields::laws::fields_of_48_bits_are_exact();
    m17_fields::laws::fields_of_64_bits_are_exact();
    m17_callsign::laws::each_address_has_one_callsign();
    m17_stream::laws::one_spelling();
}
