//! Laws of requests and answers. Each is the contract of a function that does nothing.

ghost use Rattle.page_service.specs.Laws.{AnswersLeaveLater, NothingIsTakenUnkept, OneAnswer};

use page_board::laws::each_is_later;

/// Each request asks for one thing at most, or is refused for one reason at most, and not both.
pub fn one_answer()
    ensures { OneAnswer }
{}

/// The board that an answer leaves is the one before, later.
pub fn answers_leave_later()
    ensures { AnswersLeaveLater }
{
    each_is_later();
}

/// While what there is is not kept, no answer changes anything.
pub fn nothing_is_taken_unkept()
    ensures { NothingIsTakenUnkept }
{}
