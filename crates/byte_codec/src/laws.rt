//! What codecs obey, for all types of faults and values: the contracts of functions that do nothing.

ghost use Rattle.byte_codec.specs.Laws.{AreNumberCodecs, AreBytesCodecs, MappedIsCodec, CheckedIsCodec, PairIsCodec, ChosenIsCodec, ManyAreCodec, NestedIsCodec, RetoldIsCodec, KeepsTextsApart, HasOneText};

/// The parts. Each is a codec where the parts that it is made of are: numbers, bytes, another value
/// for the same bytes, a value that may be refused, one value behind another, a tag that chooses, so
/// many values, and a value that has values of its kind within. Values and texts may be told in other
/// words.
pub fn part_laws<F, S, A, B>()
    ensures numbers { AreNumberCodecs F }
    ensures bytes { AreBytesCodecs F }
    ensures mapped { MappedIsCodec F A B }
    ensures checked { CheckedIsCodec F A }
    ensures pair { PairIsCodec F A B }
    ensures chosen { ChosenIsCodec F S A }
    ensures many { ManyAreCodec F S A }
    ensures nested { NestedIsCodec F A }
    ensures retold { RetoldIsCodec F A }
{}

/// What follows for each codec: no text of one value begins the text of another, and a text that is
/// read whole is the one text of its value.
pub fn codec_laws<F, A>()
    ensures apart { KeepsTextsApart F A }
    ensures one_text { HasOneText F A }
{}
