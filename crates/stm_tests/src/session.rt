// Sessions behind stops, with greetings and with weak pages.
mod greeting;
mod weak;
