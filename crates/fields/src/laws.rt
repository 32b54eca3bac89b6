// What the fields are in the words of the format.
ghost use Rattle.fields.specs.Laws.{WordMeans, OffsetMeans, NullableMeans};

/// Of a vertex whose links are sound, the cursor's fields are those of the format, whatever the order in which they are read.
pub fn fields_mean()
    ensures word { WordMeans }
    ensures offset { OffsetMeans }
    ensures nullable { NullableMeans }
{}
