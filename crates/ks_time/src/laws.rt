//! Laws of moments and their texts. Their functions do nothing: their contracts are the laws.
ghost use Rattle.ks_time.specs.Laws.{HasOneCivilTime, HasOneMoment, HasOneWrittenText, IsReadBack, IsWorkedOut};

/// Two civil times with one moment are one.
pub fn one_civil_time()
    ensures { HasOneCivilTime }
{}

/// A moment has one written text.
pub fn one_written_text()
    ensures { HasOneWrittenText }
{}

/// A text names one moment at most.
pub fn one_moment()
    ensures { HasOneMoment }
{}

/// What is written for a moment is read as that moment.
pub fn read_back()
    ensures { IsReadBack }
{}

/// The text of a moment that is worked out is the one that is written.
pub fn worked_out()
    ensures { IsWorkedOut }
{}
