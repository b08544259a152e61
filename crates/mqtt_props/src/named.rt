ghost use Rattle.std.specs.Prelude.{◌≡◌};
ghost use Rattle.std.specs.Option.{option_map};
ghost use Rattle.mqtt_props.specs.Lookup.{first_of, or_default, byte_in, two_in, four_in, var_in, text_in, bin_in};

use crate::lookup::{bin_of, byte_of, four_of, text_of, two_of, var_of};
use crate::props::Props;
use crate::table::{
    ASSIGNED_CLIENT_IDENTIFIER, AUTHENTICATION_DATA, AUTHENTICATION_METHOD, CONTENT_TYPE,
    CORRELATION_DATA, MAXIMUM_PACKET_SIZE, MAXIMUM_QOS, MESSAGE_EXPIRY_INTERVAL,
    PAYLOAD_FORMAT_INDICATOR, REASON_STRING, RECEIVE_MAXIMUM, REQUEST_PROBLEM_INFORMATION,
    REQUEST_RESPONSE_INFORMATION, RESPONSE_INFORMATION, RESPONSE_TOPIC, RETAIN_AVAILABLE,
    SERVER_KEEP_ALIVE, SERVER_REFERENCE, SESSION_EXPIRY_INTERVAL, SHARED_SUBSCRIPTION_AVAILABLE,
    SUBSCRIPTION_IDENTIFIER_AVAILABLE, TOPIC_ALIAS, TOPIC_ALIAS_MAXIMUM,
    WILDCARD_SUBSCRIPTION_AVAILABLE, WILL_DELAY_INTERVAL,
};
use topic_name::{Blob, Name};

impl Props {
    /// Payload Format Indicator: 0 for bytes, which is the default, or 1 for UTF-8 (MQTT 3.3.2.3.2, 3.1.3.2.3).
    pub fn payload_format(&self) -> u8
        ensures { result ≡ or_default (first_of (byte_in PAYLOAD_FORMAT_INDICATOR) self.now) 0 }
    {
        byte_of(self.list(), PAYLOAD_FORMAT_INDICATOR).unwrap_or(0)
    }

    /// Message Expiry Interval, in seconds. Without it the message does not expire (MQTT 3.3.2.3.3, 3.1.3.2.4).
    pub fn message_expiry(&self) -> Option<u32>
        ensures { result ≡ first_of (four_in MESSAGE_EXPIRY_INTERVAL) self.now }
    {
        four_of(self.list(), MESSAGE_EXPIRY_INTERVAL)
    }

    /// Content Type (MQTT 3.3.2.3.9, 3.1.3.2.5).
    pub fn content_type(&self) -> Option<&Name>
        ensures { option_map (λ t. t.now) result ≡ first_of (text_in CONTENT_TYPE) self.now }
    {
        text_of(self.list(), CONTENT_TYPE)
    }

    /// Response Topic (MQTT 3.3.2.3.5, 3.1.3.2.6).
    pub fn response_topic(&self) -> Option<&Name>
        ensures { option_map (λ t. t.now) result ≡ first_of (text_in RESPONSE_TOPIC) self.now }
    {
        text_of(self.list(), RESPONSE_TOPIC)
    }

    /// Correlation Data (MQTT 3.3.2.3.6, 3.1.3.2.7).
    pub fn correlation_data(&self) -> Option<&Blob>
        ensures { option_map (λ b. b.now) result ≡ first_of (bin_in CORRELATION_DATA) self.now }
    {
        bin_of(self.list(), CORRELATION_DATA)
    }

    /// Session Expiry Interval, in seconds. Without it, it is 0 in CONNECT (MQTT 3.1.2.11.2), and that of CONNECT in
    /// CONNACK and DISCONNECT (MQTT 3.2.2.3.2, 3.14.2.2.2).
    pub fn session_expiry(&self) -> Option<u32>
        ensures { result ≡ first_of (four_in SESSION_EXPIRY_INTERVAL) self.now }
    {
        four_of(self.list(), SESSION_EXPIRY_INTERVAL)
    }

    /// Assigned Client Identifier (MQTT 3.2.2.3.7).
    pub fn assigned_client(&self) -> Option<&Name>
        ensures { option_map (λ t. t.now) result
            ≡ first_of (text_in ASSIGNED_CLIENT_IDENTIFIER) self.now }
    {
        text_of(self.list(), ASSIGNED_CLIENT_IDENTIFIER)
    }

    /// Server Keep Alive, in seconds. Without it the client's holds (MQTT 3.2.2.3.14).
    pub fn server_keep_alive(&self) -> Option<u16>
        ensures { result ≡ first_of (two_in SERVER_KEEP_ALIVE) self.now }
    {
        two_of(self.list(), SERVER_KEEP_ALIVE)
    }

    /// Authentication Method (MQTT 3.1.2.11.9, 3.2.2.3.17, 3.15.2.2.2).
    pub fn authentication_method(&self) -> Option<&Name>
        ensures { option_map (λ t. t.now) result
            ≡ first_of (text_in AUTHENTICATION_METHOD) self.now }
    {
        text_of(self.list(), AUTHENTICATION_METHOD)
    }

    /// Authentication Data (MQTT 3.1.2.11.10, 3.2.2.3.18, 3.15.2.2.3).
    pub fn authentication_data(&self) -> Option<&Blob>
        ensures { option_map (λ b. b.now) result ≡ first_of (bin_in AUTHENTICATION_DATA) self.now }
    {
        bin_of(self.list(), AUTHENTICATION_DATA)
    }

    /// Request Problem Information: 1, the default, or 0 (MQTT 3.1.2.11.7).
    pub fn problem_information(&self) -> u8
        ensures { result ≡ or_default (first_of (byte_in REQUEST_PROBLEM_INFORMATION) self.now) 1 }
    {
        byte_of(self.list(), REQUEST_PROBLEM_INFORMATION).unwrap_or(1)
    }

    /// Will Delay Interval, in seconds, 0 by default (MQTT 3.1.3.2.2).
    pub fn will_delay(&self) -> u32
        ensures { result ≡ or_default (first_of (four_in WILL_DELAY_INTERVAL) self.now) 0 }
    {
        four_of(self.list(), WILL_DELAY_INTERVAL).unwrap_or(0)
    }

    /// Request Response Information: 0, the default, or 1 (MQTT 3.1.2.11.6).
    pub fn response_information_asked(&self) -> u8
        ensures { result ≡ or_default (first_of (byte_in REQUEST_RESPONSE_INFORMATION) self.now) 0 }
    {
        byte_of(self.list(), REQUEST_RESPONSE_INFORMATION).unwrap_or(0)
    }

    /// Response Information (MQTT 3.2.2.3.15).
    pub fn response_information(&self) -> Option<&Name>
        ensures { option_map (λ t. t.now) result
            ≡ first_of (text_in RESPONSE_INFORMATION) self.now }
    {
        text_of(self.list(), RESPONSE_INFORMATION)
    }

    /// Server Reference (MQTT 3.2.2.3.16, 3.14.2.2.5).
    pub fn server_reference(&self) -> Option<&Name>
        ensures { option_map (λ t. t.now) result ≡ first_of (text_in SERVER_REFERENCE) self.now }
    {
        text_of(self.list(), SERVER_REFERENCE)
    }

    /// Reason String (MQTT 3.2.2.3.9, 3.4.2.2.2, 3.14.2.2.3).
    pub fn reason_string(&self) -> Option<&Name>
        ensures { option_map (λ t. t.now) result ≡ first_of (text_in REASON_STRING) self.now }
    {
        text_of(self.list(), REASON_STRING)
    }

    /// Receive Maximum, 65,535 by default (MQTT 3.1.2.11.3, 3.2.2.3.3).
    pub fn receive_maximum(&self) -> u16
        ensures { result ≡ or_default (first_of (two_in RECEIVE_MAXIMUM) self.now) 65535 }
    {
        two_of(self.list(), RECEIVE_MAXIMUM).unwrap_or(65535)
    }

    /// Topic Alias Maximum, 0 by default (MQTT 3.1.2.11.5, 3.2.2.3.8).
    pub fn topic_alias_maximum(&self) -> u16
        ensures { result ≡ or_default (first_of (two_in TOPIC_ALIAS_MAXIMUM) self.now) 0 }
    {
        two_of(self.list(), TOPIC_ALIAS_MAXIMUM).unwrap_or(0)
    }

    /// Topic Alias (MQTT 3.3.2.3.4).
    pub fn topic_alias(&self) -> Option<u16>
        ensures { result ≡ first_of (two_in TOPIC_ALIAS) self.now }
    {
        two_of(self.list(), TOPIC_ALIAS)
    }

    /// Maximum QoS: 0 or 1, and 2 by default (MQTT 3.2.2.3.4).
    pub fn maximum_qos(&self) -> u8
        ensures { result ≡ or_default (first_of (byte_in MAXIMUM_QOS) self.now) 2 }
    {
        byte_of(self.list(), MAXIMUM_QOS).unwrap_or(2)
    }

    /// Retain Available: 1, the default, or 0 (MQTT 3.2.2.3.5).
    pub fn retain_available(&self) -> u8
        ensures { result ≡ or_default (first_of (byte_in RETAIN_AVAILABLE) self.now) 1 }
    {
        byte_of(self.list(), RETAIN_AVAILABLE).unwrap_or(1)
    }

    /// Maximum Packet Size, in bytes. Without it there is no limit of its own (MQTT 3.1.2.11.4, 3.2.2.3.6).
    pub fn maximum_packet_size(&self) -> Option<u32>
        ensures { result ≡ first_of (four_in MAXIMUM_PACKET_SIZE) self.now }
    {
        four_of(self.list(), MAXIMUM_PACKET_SIZE)
    }

    /// Wildcard Subscription Available: 1, the default, or 0 (MQTT 3.2.2.3.11).
    pub fn wildcards_available(&self) -> u8
        ensures { result
            ≡ or_default (first_of (byte_in WILDCARD_SUBSCRIPTION_AVAILABLE) self.now) 1 }
    {
        byte_of(self.list(), WILDCARD_SUBSCRIPTION_AVAILABLE).unwrap_or(1)
    }

    /// Subscription Identifiers Available: 1, the default, or 0 (MQTT 3.2.2.3.12).
    pub fn identifiers_available(&self) -> u8
        ensures { result
            ≡ or_default (first_of (byte_in SUBSCRIPTION_IDENTIFIER_AVAILABLE) self.now) 1 }
    {
        byte_of(self.list(), SUBSCRIPTION_IDENTIFIER_AVAILABLE).unwrap_or(1)
    }

    /// Shared Subscription Available: 1, the default, or 0 (MQTT 3.2.2.3.13).
    pub fn shared_available(&self) -> u8
        ensures { result
            ≡ or_default (first_of (byte_in SHARED_SUBSCRIPTION_AVAILABLE) self.now) 1 }
    {
        byte_of(self.list(), SHARED_SUBSCRIPTION_AVAILABLE).unwrap_or(1)
    }

    /// Subscription Identifier, the first where there are several (MQTT 3.8.2.1.2, 3.3.2.3.8).
    pub fn subscription_identifier(&self) -> Option<u32>
        ensures { result ≡ first_of var_in self.now }
    {
        var_of(self.list())
    }
}
