#![tactic(auto)]
//! The service behind a page to paint on: who may ask, what is asked, and what each request is answered, over a board.
//!
//! ```text
//! let mut painting = Painting::new(alloc, board, hosts, key, name, page, policy);
//! connection.advance(&mut painting);       // each whole request is answered
//! while !painting.grow_in_bands(&rt, 4, 256)? {}   // between requests: no work is left
//! ```
//!
//! A page in a browser asks a server on the loopback by HTTP. [`read_request`] says what a request asks for, an
//! [`Asked`], or why it is refused, a [`RequestRefusal`] with a status of its own. A request has to name this server,
//! by one of its two [`Hosts`], and a post has to come from a page of it. Both keep foreign pages out. The [`Key`] in
//! the path keeps out other users of the machine: [`shows_key`] tells whether the first bytes of a connection show it.
//! [`put_answer`] fills a response with a status, a body and the fields that every answer has, and [`put_refusal`] that
//! of a refusal.
//!
//! A [`Painting`] is a `Service` of `http_server`, without a handle, a clock or a connection; it grows by the threads
//! of a handle that it is lent. What it tells of its board, `page_board` says. One call is one moment: numbers, strokes
//! and pixels of an answer are those of one board.
//! What is posted is taken whole or not at all, and once it is taken, nothing that the answer needs can be wanting.
//!
//! Whoever keeps the board's state tells the painting whether it is kept ([`Painting::note_kept`]): while it is not,
//! what is posted is answered 503 with the reason and nothing is taken ([`nothing_is_taken_unkept`]); all else is
//! answered as ever. What another program has put into the state file is taken by [`Painting::take_found`].
//!
//! The answer to `mask` tells how the mask's file is called, by the field that a [`MaskName`] makes once.
//!
//! The files of the mask and of the image are made once for a moment and shared among those who ask for them. Large
//! answers that nobody has read yet have a bound, `unread` says which: past it a large answer finds no memory, and
//! small ones are given as ever.
//!
//! What `GET strokes` tells is read by `edit_lang` as exactly the live strokes: `edit_lang::what_is_written_is_read`.
//!
//! Read on in `specs/Sender.antt` for who may ask, in `specs/Showing.antt` for what shows the key, in
//! `specs/Table.antt` for what is asked, in `specs/Refusing.antt` for the order of the refusals, in
//! `specs/AnswerFields.antt` for what an answer carries, in `specs/MaskName.antt` for the field of the mask's name, and
//! in `specs/Answering.antt`: `Answers` is the contract of each call. [`answers_leave_later`] says that no answer leads
//! back, so that what a page is told leaves nothing out (`page_board::laws::changes_tell_all`).

mod answer_fields;
mod fault;
mod hosts;
mod joiner;
mod keeper;
mod kept;
mod key;
mod laws;
mod limits;
mod mask_name;
mod painting;
mod query;
mod reading;
mod refusal;
mod sender;
mod showing;
mod table;
mod unread;

pub use answer_fields::{Media, put_answer, put_refusal};
pub use hosts::{Hosts, address};
pub use keeper::StateKeeper;
pub use kept::Kept;
pub use key::Key;
pub use laws::{answers_leave_later, nothing_is_taken_unkept, one_answer};
pub use limits::{MAX_BODY_LEN, MAX_HEAD_LEN, MAX_WAITING, config};
pub use mask_name::MaskName;
pub use painting::Painting;
pub use reading::read_request;
pub use refusal::RequestRefusal;
pub use showing::shows_key;
pub use table::{Asked, Moment, Resource};
