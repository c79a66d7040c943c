//! What files mean. The functions do nothing: their contracts are laws.
ghost use Rattle.base_reader.specs.Laws.{HasOneMeaning, HasOneRefusal, MeansOrIsRefused};

use fo_reader::one_file_reading;

/// A file means one knowledge base.
pub fn one_file_meaning()
    ensures { HasOneMeaning }
{
    one_file_reading();
}

/// A file is refused in one way.
pub fn one_file_refusal()
    ensures { HasOneRefusal }
{
    one_file_reading();
}

/// No file is both refused and means a knowledge base.
pub fn accepted_or_refused()
    ensures { MeansOrIsRefused }
{
    one_file_reading();
}
