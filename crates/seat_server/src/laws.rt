//! What holds of every served board.

ghost use Rattle.seat_server.specs.OneList.{TellsOfOneList};

/// Whatever the clients of a served board are told on any connection, each edit, each plane and each
/// exported text, is of the beginning of one list, whose length the account says; that has each edit that
/// was pushed on this connection before, and answered 0. It does nothing: its contract is the law.
pub fn one_list_laws()
    ensures { TellsOfOneList }
{}
