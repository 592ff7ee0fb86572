// Promises about every text. Each function stands for the theorem in its contract, and does nothing.
ghost use Rattle.syntax.specs.Theorems.{PiecesJoinedAreTheText, Examples};

pub fn pieces_joined_are_the_text()
    ensures { PiecesJoinedAreTheText }
{}

pub fn short_texts_hold_what_they_should()
    ensures { Examples }
{}
