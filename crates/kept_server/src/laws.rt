//! What holds of every kept board.

ghost use Rattle.kept_server.specs.Restarts.{TellsAcrossRestarts};
ghost use Rattle.kept_server.specs.Serving.{TellsOfKeptList};

/// Whatever the clients of a kept board are told on any connection is of the beginning of one list, whose length
/// the account says; that has each edit that was pushed on this connection before, and answered 0. It does
/// nothing: its contract is the law.
pub fn kept_list_laws()
    ensures { TellsOfKeptList }
{}

/// Whatever a crash leaves at any moment of a run, the next one begins with all that was published, and with
/// nothing that was not submitted: so what was told of the one list before is told of it behind a restart too.
pub fn restart_laws()
    ensures { TellsAcrossRestarts }
{}
