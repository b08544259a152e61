ghost use Rattle.std.specs.Prelude.{◌≤◌, length};
ghost use Rattle.broker_main.specs.BrokerView.{IsSessionPlace, IsConnectionPlace};

use first_session_core::{Connection, Session};
use topic_name::Name;

/// Where the connection with this number stands; the length where there is none.
pub fn place_of_connection(connections: &[Connection], number: u16) -> usize
    ensures within { result ≤ length connections.now }
    ensures place { IsConnectionPlace connections.now number result }
{
    for (i, connection) in connections.iter().enumerate() {
        if connection.number() == number {
            return i;
        }
    }
    connections.len()
}

/// Where the session of this client stands; the length where there is none.
pub fn place_of_session(sessions: &[Session], client: &Name) -> usize
    ensures within { result ≤ length sessions.now }
    ensures place { IsSessionPlace sessions.now client.now result }
{
    for (i, session) in sessions.iter().enumerate() {
        if session.client().is(client) {
            return i;
        }
    }
    sessions.len()
}
